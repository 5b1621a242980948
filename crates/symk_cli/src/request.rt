//! What the words ask for.

ghost use Rattle.std.specs.Prelude.{◌≡◌, ◌≤◌, IfSome, option_map};
ghost use Rattle.symk_words.specs.Texts.{view_of};
ghost use Rattle.plan_run.specs.Reaches.{IsNear};
ghost use Rattle.symk_cli.specs.Wishes.{number_within, mode_named, mode_of, direction_named, direction_of, reach_of, serves, lists_after, spelled};
ghost use Rattle.symk_cli.specs.Requests.{list_asked, wish_asked, IsWithinLimits};

use plan_run::{Direction, Reach, Search, Wanted};
use symk_task::Mode;
use symk_text::number;
use symk_words::Asked;

/// The greatest number of plans that a list is asked for.
const MOST_PLANS: u64 = 1_000_000_000;

/// What a list is asked to be: so many plans of the task of a file in a mode, searched for so, up to a cost.
#[derive(Clone, Copy, Debug, PartialEq, Eq)]
pub struct ListRequest<'a> {
    pub file: &'a str,
    pub wanted: Wanted,
    pub mode: Mode,
    pub search: Search,
    pub reach: Reach,
}

/// What a list is asked to be that goes on from that in a file of plans.
#[derive(Clone, Copy, Debug, PartialEq, Eq)]
pub struct FurtherRequest<'a> {
    pub file: &'a str,
    pub plans: &'a str,
    pub wanted: Wanted,
    pub mode: Mode,
    pub search: Search,
}

/// A lawful request.
#[derive(Clone, Copy, Debug, PartialEq, Eq)]
pub enum Request<'a> {
    Plan(ListRequest<'a>),
    Further(FurtherRequest<'a>),
    Check {
        file: &'a str,
        plans: &'a str,
        mode: Mode,
    },
    Demo {
        switches: u32,
    },
    Prove {
        file: &'a str,
    },
    Refute {
        file: &'a str,
        cert: &'a str,
    },
}

/// The request that the texts spell, None where one of them isn't as the usage text says.
pub fn request_of<'a>(asked: &Asked<'a>) -> Option<Request<'a>>
    ensures wish { option_map wish_asked result ≡ spelled (view_of asked.now) }
    ensures within { IfSome result IsWithinLimits }
{
    match *asked {
        Asked::Plan {
            file,
            k,
            mode,
            search,
            more,
            bound,
            quality,
            after,
            mutex,
        } => {
            let count = number_within(k, 1, MOST_PLANS)?;
            let mode = mode_of(mode)?;
            let direction = direction_of(search)?;
            let reach = reach_of(bound, quality)?;
            if is_served(mode, direction) {
                let list = ListRequest {
                    file,
                    wanted: Wanted { count, more },
                    mode,
                    search: Search { direction, mutex },
                    reach,
                };
                list_request(list, after)
            } else {
                None
            }
        }
        Asked::Check { file, plans, mode } => Some(Request::Check {
            file,
            plans,
            mode: mode_of(mode)?,
        }),
        Asked::Demo { n } => Some(Request::Demo {
            switches: number_within(n, 1, 64)? as u32,
        }),
        Asked::Prove { file } => Some(Request::Prove { file }),
        Asked::Refute { file, cert } => Some(Request::Refute { file, cert }),
    }
}

/// A list, or one that goes on from that in a file that is named; it has no greatest cost then.
fn list_request<'a>(list: ListRequest<'a>, after: Option<&'a str>) -> Option<Request<'a>>
    requires least { 1 ≤ list.wanted.count }
    requires most { list.wanted.count ≤ 1000000000 }
    requires near { IsNear list.reach }
    ensures wish { option_map wish_asked result
        ≡ lists_after (option_map (λ s. s.now) after.entry) (list_asked list.entry) }
    ensures within { IfSome result IsWithinLimits }
{
    match (after, list.reach) {
        (None, _) => Some(Request::Plan(list)),
        (Some(plans), Reach::All) => Some(Request::Further(FurtherRequest {
            file: list.file,
            plans,
            wanted: list.wanted,
            mode: list.mode,
            search: list.search,
        })),
        (Some(_), _) => None,
    }
}

/// The greatest cost that is wanted, named by itself or in percent of the least one, but not by both.
fn reach_of(bound: Option<&str>, quality: Option<&str>) -> Option<Reach>
    ensures reach { result ≡ reach_of (option_map (λ s. s.now) bound.entry) (option_map (λ s. s.now) quality.entry) }
    ensures within { IfSome result IsNear }
{
    match (bound, quality) {
        (None, None) => Some(Reach::All),
        (Some(bound), None) => Some(Reach::UpTo(number_within(bound, 0, u64::MAX)?)),
        (None, Some(quality)) => Some(Reach::Percent(number_within(quality, 100, 10_000)?)),
        (Some(_), Some(_)) => None,
    }
}

/// The number that is the whole word, within the bounds.
fn number_within(word: &str, least: u64, most: u64) -> Option<u64>
    ensures number { result ≡ number_within least most word.now }
    ensures bounds { IfSome result (λ n. (least ≤ n) × (n ≤ most)) }
{
    let (value, end) = number(word.as_bytes(), 0)?;
    if end == word.len() && least <= value && value <= most {
        Some(value)
    } else {
        None
    }
}

/// The mode that a word names, top-k plans where there is none.
fn mode_of(word: Option<&str>) -> Option<Mode>
    ensures { result ≡ mode_of (option_map (λ s. s.now) word.entry) }
{
    match word {
        Some(word) => mode_named(word),
        None => Some(Mode::TopK),
    }
}

#[tactic(auto, unfolding(crate::specs::Wishes::mode_named))]
fn mode_named(word: &str) -> Option<Mode>
    ensures { result ≡ mode_named word.now }
{
    match word {
        "topk" => Some(Mode::TopK),
        "loopless" => Some(Mode::Loopless),
        "unordered" => Some(Mode::Unordered),
        _ => None,
    }
}

/// The direction that a word names, the program's own choice where there is none.
fn direction_of(word: Option<&str>) -> Option<Direction>
    ensures { result ≡ direction_of (option_map (λ s. s.now) word.entry) }
{
    match word {
        Some(word) => direction_named(word),
        None => Some(Direction::Auto),
    }
}

#[tactic(auto, unfolding(crate::specs::Wishes::direction_named))]
fn direction_named(word: &str) -> Option<Direction>
    ensures { result ≡ direction_named word.now }
{
    match word {
        "auto" => Some(Direction::Auto),
        "forward" => Some(Direction::Forward),
        "backward" => Some(Direction::Backward),
        "bidirectional" => Some(Direction::Bidirectional),
        _ => None,
    }
}

/// Loopless plans are found backward alone.
fn is_served(mode: Mode, direction: Direction) -> bool
    ensures { result ≡ serves mode direction }
{
    let forward = direction == Direction::Forward || direction == Direction::Bidirectional;
    mode != Mode::Loopless || !forward
}

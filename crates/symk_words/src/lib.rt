//! The words of the command line, read by `clap`.
//!
//! `read_words` gives what the words ask for as texts: a number or a mode is still a text here, and may be no such
//! thing. It promises that these are the texts that `clap`, by its own definitions, gives for the command `plan`,
//! `check`, `demo`, `prove` or `refute`, and that the words are refused only where there are none. `lawful_words`
//! says for each lawful form which texts those are. The first word is the program's name and isn't looked at. There
//! is no help and no version. It stands on `clap` alone, and by itself, since each crate that calls `clap` takes long
//! to prove.
#![tactic(auto)]

ghost use Rattle.std.specs.Prelude.{◌≡◌, IfOk, IsErrOf, Some, None, false, map, option_map, string_bytes};
ghost use Rattle.clap.specs.Walk.{first_of, rule_of, rows_of};
ghost use Rattle.clap.specs.Matches.{found_of};
ghost use Rattle.clap.specs.Simple.{subcommand_rows_of};
ghost use Rattle.symk_words.specs.Texts.{PlanTexts, plan_texts, is_set, check_texts, demo_texts, prove_texts, refute_texts, texts_of, texts_asked, view_of, plan, check, demo, prove, refute};
ghost use Rattle.symk_words.specs.Lawful.{Plain, PlainIfSome, ArePlain, plan_words, check_words, demo_words, prove_words, refute_words};
ghost use Rattle.clap.specs.Walk.{Text};
ghost use Rattle.std.specs.declared.option.Option.{Option};
ghost use Rattle.clap.specs.Simple.{App, app_of, with_rule, with_subcommand};
ghost use Rattle.clap.specs.declared.builder.command.Command.TheViews.{out-Command};
ghost use Rattle.symk_words.specs.App.{symk_app, found_app, reach_app, plan_app, check_app, demo_app, prove_app, refute_app, positional_rule as place_rule, wanted as wanted_rule, wished as wished_rule, flag as flag_rule};

use clap::error::ErrorKind;
use clap::{Arg, ArgAction, ArgMatches, Command};
use std::alloc::{AllocError, Global};

/// A text in its place, which has to be there.
fn place<'a>(alloc: Global, name: &'a str) -> Arg<'a>
    ensures rule { rule_of result ≡ place_rule name.now }
    ensures local { result.global ≡ false }
{
    Arg::new(alloc, name).required(true)
}

/// An option with a value, which has to be there.
fn wanted<'a>(alloc: Global, name: &'a str) -> Arg<'a>
    ensures rule { rule_of result ≡ wanted_rule name.now }
    ensures local { result.global ≡ false }
{
    Arg::new(alloc, name).long(name).required(true)
}

/// An option with a value, which may be left out.
fn wished<'a>(alloc: Global, name: &'a str) -> Arg<'a>
    ensures rule { rule_of result ≡ wished_rule name.now }
    ensures local { result.global ≡ false }
{
    Arg::new(alloc, name).long(name)
}

/// An option without a value.
fn flag<'a>(alloc: Global, name: &'a str) -> Arg<'a>
    ensures rule { rule_of result ≡ flag_rule name.now }
    ensures local { result.global ≡ false }
{
    Arg::new(alloc, name).long(name).action(ArgAction::SetTrue)
}

/// The command with an argument more, which is its own.
fn with_arg<'a>(command: Command<'a>, arg: Arg<'a>) -> Result<Command<'a>, AllocError>
    requires own { arg.global ≡ false }
    requires local { (out-Command command).has_globals ≡ false }
    ensures app { IfOk result (λ c. app_of c ≡ with_rule (app_of command.entry) (rule_of arg.entry)) }
    ensures local { IfOk result (λ c. (out-Command c).has_globals ≡ false) }
{
    command.arg(arg)
}

/// The command with a subcommand more, where there was memory for that one.
fn with_command<'a>(
    command: Command<'a>,
    added: Result<Command<'a>, AllocError>,
) -> Result<Command<'a>, AllocError>
    requires local { IfOk added (λ c. (out-Command c).has_globals ≡ false) }
    ensures { (a : App) → IfOk added.entry (λ c. app_of c ≡ a)
        → IfOk result (λ c. app_of c ≡ with_subcommand (app_of command.entry) a.top) }
{
    command.subcommand(added?)
}

/// `plan` with what says which plans are listed, and how they are found.
fn found_command<'a>(alloc: Global) -> Result<Command<'a>, AllocError>
    ensures app { IfOk result (λ c. app_of c ≡ found_app) }
    ensures local { IfOk result (λ c. (out-Command c).has_globals ≡ false) }
{
    let command = Command::new(alloc, "plan");
    let command = with_arg(command, place(alloc, "file"))?;
    let command = with_arg(command, wanted(alloc, "k"))?;
    let command = with_arg(command, wished(alloc, "mode"))?;
    with_arg(command, wished(alloc, "search"))
}

/// And with what says how far the list goes.
fn reach_command<'a>(alloc: Global) -> Result<Command<'a>, AllocError>
    ensures app { IfOk result (λ c. app_of c ≡ reach_app) }
    ensures local { IfOk result (λ c. (out-Command c).has_globals ≡ false) }
{
    let command = found_command(alloc)?;
    let command = with_arg(command, flag(alloc, "more"))?;
    let command = with_arg(command, wished(alloc, "bound"))?;
    with_arg(command, wished(alloc, "quality"))
}

/// And with what says from where on, and whether groups may cut the search.
fn plan_command<'a>(alloc: Global) -> Result<Command<'a>, AllocError>
    ensures app { IfOk result (λ c. app_of c ≡ plan_app) }
    ensures local { IfOk result (λ c. (out-Command c).has_globals ≡ false) }
{
    let command = reach_command(alloc)?;
    let command = with_arg(command, wished(alloc, "after"))?;
    with_arg(command, flag(alloc, "mutex"))
}

fn check_command<'a>(alloc: Global) -> Result<Command<'a>, AllocError>
    ensures app { IfOk result (λ c. app_of c ≡ check_app) }
    ensures local { IfOk result (λ c. (out-Command c).has_globals ≡ false) }
{
    let command = Command::new(alloc, "check");
    let command = with_arg(command, place(alloc, "file"))?;
    let command = with_arg(command, place(alloc, "plans"))?;
    with_arg(command, wished(alloc, "mode"))
}

fn demo_command<'a>(alloc: Global) -> Result<Command<'a>, AllocError>
    ensures app { IfOk result (λ c. app_of c ≡ demo_app) }
    ensures local { IfOk result (λ c. (out-Command c).has_globals ≡ false) }
{
    with_arg(Command::new(alloc, "demo"), place(alloc, "n"))
}

fn prove_command<'a>(alloc: Global) -> Result<Command<'a>, AllocError>
    ensures app { IfOk result (λ c. app_of c ≡ prove_app) }
    ensures local { IfOk result (λ c. (out-Command c).has_globals ≡ false) }
{
    with_arg(Command::new(alloc, "prove"), place(alloc, "file"))
}

fn refute_command<'a>(alloc: Global) -> Result<Command<'a>, AllocError>
    ensures app { IfOk result (λ c. app_of c ≡ refute_app) }
    ensures local { IfOk result (λ c. (out-Command c).has_globals ≡ false) }
{
    let command = Command::new(alloc, "refute");
    let command = with_arg(command, place(alloc, "file"))?;
    with_arg(command, place(alloc, "cert"))
}

/// The command of the program.
fn symk_command<'a>(alloc: Global) -> Result<Command<'a>, AllocError>
    ensures { IfOk result (λ c. app_of c ≡ symk_app) }
{
    let command = Command::new(alloc, "symk")
        .subcommand_required(true)
        .disable_help_flag(true)
        .disable_help_subcommand(true);
    let command = with_command(command, plan_command(alloc))?;
    let command = with_command(command, check_command(alloc))?;
    let command = with_command(command, demo_command(alloc))?;
    let command = with_command(command, prove_command(alloc))?;
    with_command(command, refute_command(alloc))
}

/// What the words ask for. Each text is a part of a word, as it stands there: it may be empty, and no number or name.
#[derive(Clone, Copy, Debug, PartialEq, Eq)]
pub enum Asked<'a> {
    /// `plan FILE --k K [--mode M] [--search S] [--more] [--bound Q] [--quality P] [--after PLANS] [--mutex]`.
    Plan {
        /// The name of the task file.
        file: &'a str,
        /// How many plans are to be listed.
        k: &'a str,
        /// The mode, if one is named.
        mode: Option<&'a str>,
        /// The direction of the search, if one is named.
        search: Option<&'a str>,
        /// Whether one plan more is to be looked for.
        more: bool,
        /// The greatest cost that is wanted, if one is named.
        bound: Option<&'a str>,
        /// The greatest cost that is wanted, in percent of the least one, if it is named.
        quality: Option<&'a str>,
        /// The name of the file with the list to go on from, if one is named.
        after: Option<&'a str>,
        /// Whether stated mutex groups are to cut the search.
        mutex: bool,
    },
    /// `check FILE PLANS [--mode M]`.
    Check {
        /// The name of the task file.
        file: &'a str,
        /// The name of the file with the plans.
        plans: &'a str,
        /// The mode, if one is named.
        mode: Option<&'a str>,
    },
    /// `demo N`.
    Demo {
        /// How many switches there are to be.
        n: &'a str,
    },
    /// `prove FILE`.
    Prove {
        /// The name of the task file.
        file: &'a str,
    },
    /// `refute FILE CERT`.
    Refute {
        /// The name of the task file.
        file: &'a str,
        /// The name of the file with the certificate.
        cert: &'a str,
    },
}

/// Why the words give nothing.
#[derive(Clone, Copy, Debug, PartialEq, Eq)]
pub enum WordsFault {
    /// The words are none of the forms of the command.
    Usage,
    /// Out of memory.
    Memory,
}

/// Whether an option without a value is given. It has the text `true` there, and else the text `false`.
#[tactic(auto, using(crate::proofs::Getters::read_first))]
fn is_given(matches: &ArgMatches<'_>, name: &str) -> bool
    ensures { result ≡ is_set (first_of name.now (rows_of (found_of matches.now))) }
{
    match matches.get_str(name) {
        Some(text) => text == "true",
        None => false,
    }
}

/// The texts of a `plan`.
#[tactic(auto, using(crate::proofs::Getters::read_first))]
fn plan_of<'a>(matches: &ArgMatches<'a>) -> Option<Asked<'a>>
    ensures { option_map view_of result ≡ plan_texts (rows_of (found_of matches.now)) }
{
    let file = matches.get_str("file")?;
    let k = matches.get_str("k")?;
    Some(Asked::Plan {
        file,
        k,
        mode: matches.get_str("mode"),
        search: matches.get_str("search"),
        more: is_given(matches, "more"),
        bound: matches.get_str("bound"),
        quality: matches.get_str("quality"),
        after: matches.get_str("after"),
        mutex: is_given(matches, "mutex"),
    })
}

/// The texts of a `check`.
#[tactic(auto, using(crate::proofs::Getters::read_first))]
fn check_of<'a>(matches: &ArgMatches<'a>) -> Option<Asked<'a>>
    ensures { option_map view_of result ≡ check_texts (rows_of (found_of matches.now)) }
{
    let file = matches.get_str("file")?;
    let plans = matches.get_str("plans")?;
    Some(Asked::Check {
        file,
        plans,
        mode: matches.get_str("mode"),
    })
}

/// The texts of a `demo`.
#[tactic(auto, using(crate::proofs::Getters::read_first))]
fn demo_of<'a>(matches: &ArgMatches<'a>) -> Option<Asked<'a>>
    ensures { option_map view_of result ≡ demo_texts (rows_of (found_of matches.now)) }
{
    let n = matches.get_str("n")?;
    Some(Asked::Demo { n })
}

/// The text of a `prove`.
#[tactic(auto, using(crate::proofs::Getters::read_first))]
fn prove_of<'a>(matches: &ArgMatches<'a>) -> Option<Asked<'a>>
    ensures { option_map view_of result ≡ prove_texts (rows_of (found_of matches.now)) }
{
    let file = matches.get_str("file")?;
    Some(Asked::Prove { file })
}

/// The texts of a `refute`.
#[tactic(auto, using(crate::proofs::Getters::read_first))]
fn refute_of<'a>(matches: &ArgMatches<'a>) -> Option<Asked<'a>>
    ensures { option_map view_of result ≡ refute_texts (rows_of (found_of matches.now)) }
{
    let file = matches.get_str("file")?;
    let cert = matches.get_str("cert")?;
    Some(Asked::Refute { file, cert })
}

/// The texts of whichever subcommand was given.
fn asked_of<'a>(matches: &ArgMatches<'a>) -> Option<Asked<'a>>
    ensures { option_map view_of result ≡ texts_of (subcommand_rows_of matches.now) }
{
    let (name, inner) = matches.subcommand()?;
    match name {
        "plan" => plan_of(inner),
        "check" => check_of(inner),
        "demo" => demo_of(inner),
        "prove" => prove_of(inner),
        "refute" => refute_of(inner),
        _ => None,
    }
}

/// Reads the words, of which the first is the program's name: one subcommand with its texts in their places and its
/// options, each at most once, in any order, with one value, also as `--k=3`, or with none.
///
/// It is `Usage` only where `clap`'s definitions give no texts for the words.
pub fn read_words<'a>(alloc: Global, words: &'a [String]) -> Result<Asked<'a>, WordsFault>
    ensures ok { IfOk result (λ a. texts_asked (map (λ w. string_bytes w) words.now) ≡ Some (view_of a)) }
    ensures usage { IsErrOf result WordsFault.Usage → texts_asked (map (λ w. string_bytes w) words.now) ≡ None }
{
    let Ok(command) = symk_command(alloc) else {
        return Err(WordsFault::Memory);
    };
    match command.try_get_matches_from(words) {
        Ok(matches) => match asked_of(&matches) {
            Some(texts) => Ok(texts),
            None => Err(WordsFault::Usage),
        },
        Err(error) => {
            if error.kind() == ErrorKind::OutOfMemory {
                Err(WordsFault::Memory)
            } else {
                Err(WordsFault::Usage)
            }
        }
    }
}

/// Lawful words give their texts: a law, with nothing to run.
///
/// They have the program's name, the subcommand, the texts in their places, and the options in the order of the usage
/// text. No text of theirs is empty or begins with `-`.
pub fn lawful_words()
    ensures plan { (prog : Text) (t : PlanTexts) → ArePlain t → texts_asked (plan_words prog t) ≡ Some (plan t) }
    ensures check { (prog F P : Text) (mode : Option Text) → Plain F → Plain P → PlainIfSome mode
        → texts_asked (check_words prog F P mode) ≡ Some (check F P mode) }
    ensures demo { (prog N : Text) → Plain N → texts_asked (demo_words prog N) ≡ Some (demo N) }
    ensures prove { (prog F : Text) → Plain F → texts_asked (prove_words prog F) ≡ Some (prove F) }
    ensures refute { (prog F C : Text) → Plain F → Plain C → texts_asked (refute_words prog F C) ≡ Some (refute F C) }
{}

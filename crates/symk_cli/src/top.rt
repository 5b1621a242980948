//! The top call.

ghost use Rattle.std.specs.Prelude.{◌≡◌, ◌≢◌, ◌≤◌, [], ◌∷◌, Some, None, IfOk, IsErrOf, map, string_bytes};
ghost use Rattle.symk_io.specs.Causes.{Rose};
ghost use Rattle.symk_io.specs.NoFault.{files_view, sink_view};
ghost use Rattle.run_status.specs.Ends.{HasCauses};
ghost use Rattle.plan_run.specs.Reaches.{IsNear};
ghost use Rattle.symk_cli.specs.Wishes.{wish_of, files_of, lists, continues, checks, proves, refutes};
ghost use Rattle.symk_cli.specs.Requests.{further_asked, list_asked, wish_asked, IsWithinLimits};
ghost use Rattle.symk_cli.specs.LawfulWords.{AreLawful};
ghost use Rattle.symk_cli.specs.Answer.{Answered, usage_text};
ghost use Rattle.symk_cli.specs.Opens.{OpensFiles};
ghost use Rattle.symk_cli.specs.Certs.{IsCertSettled};
ghost use Rattle.symk_cli.specs.Complete.{Complete};
ghost use Rattle.symk_cli.specs.Lengths.{Lengths};

use crate::checking::judge;
use crate::continuing::go_on;
use crate::demo::show;
use crate::reading::{Named, plans_of, task_of, text_of};
use crate::request::{FurtherRequest, ListRequest, Request, request_of};
use plan_run::list_reached;
use run_status::{Status, end};
use std::alloc::Global;
use symk_io::{Files, NoFaultFiles, NoFaultSink, Sink};
use symk_task::Mode;
use symk_words::{WordsFault, read_words};

/// What the program may be asked for.
pub const USAGE: &[u8] =
    b"usage: symk plan FILE --k K [--mode topk|loopless|unordered] [--search auto|forward|backward|bidirectional] [--more] [--bound Q | --quality P] [--after PLANS] [--mutex]\n       symk check FILE PLANS [--mode topk|loopless|unordered]\n       symk demo N\n       symk prove FILE\n       symk refute FILE CERT\n";

/// Answers the words: lists the plans of a task, checks a list of plans, shows a task that is made from a number, or
/// writes or checks a certificate that a task has no plan.
///
/// The first word is the program's name and isn't looked at. What is read comes from `files`, and every byte goes to
/// `sink`, each block of a plan as one piece, which is flushed before the next plan is asked for. A refusal writes
/// its text, as one piece, and nothing else; out of memory and a fault of the sink end the run where they come, and
/// nothing more is written then.
pub fn run<F: Files, K: Sink>(
    alloc: Global,
    words: &[String],
    files: &mut F,
    sink: &mut K,
) -> Status
    // The bytes and the status answer the words, for the texts of the files, with one flush for each piece.
    ensures answer { Answered (Rose (F.view files.old).faults (F.view files.new).faults)
        (wish_of (map (λ w. string_bytes w) words.now)) (F.view files.old).told
        (K.view sink.old) (K.view sink.new) result }
    // A fault is answered only where one was counted, and where one was, no other status comes but out of memory.
    ensures causes { HasCauses result (F.view files.old).faults (F.view files.new).faults
        (K.view sink.old).faults (K.view sink.new).faults }
    // The files are opened in their order, and none but those asked for, each at most once.
    ensures opened { OpensFiles (files_of (wish_of (map (λ w. string_bytes w) words.now))) (F.view files.old).told
        (F.view files.new).told (K.view sink.old).taken (K.view sink.new).taken result }
    // Usage comes of no lawful words, and too long of no text that isn't.
    ensures lawful { AreLawful (map (λ w. string_bytes w) words.now) → result ≢ Status.Usage }
    ensures lengths { Lengths (wish_of (map (λ w. string_bytes w) words.now)) (F.view files.old).told result }
    // A certificate goes out, and one is taken, only where the task has no plan, whoever wrote it.
    ensures proved { result ≡ Status.Proved → IsCertSettled (wish_of (map (λ w. string_bytes w) words.now))
        (F.view files.old).told }
    ensures refuted { result ≡ Status.Refuted → IsCertSettled (wish_of (map (λ w. string_bytes w) words.now))
        (F.view files.old).told }
    // Where nothing stands against it, what is asked for comes, unless out of memory.
    ensures complete { Complete (wish_of (map (λ w. string_bytes w) words.now)) (F.view files.old)
        (F.view files.new) (K.view sink.old) (K.view sink.new) result }
{
    answer(alloc, words, files, sink)
}

/// Answers the words over files and a sink in memory that can't fail: as `run` does, and no fault is answered.
pub fn run_in_memory(
    alloc: Global,
    words: &[String],
    files: &mut NoFaultFiles,
    sink: &mut NoFaultSink,
) -> Status
    ensures answer { Answered (Rose (files_view files.old).faults (files_view files.new).faults)
        (wish_of (map (λ w. string_bytes w) words.now)) (files_view files.old).told
        (sink_view sink.old) (sink_view sink.new) result }
    ensures opened { OpensFiles (files_of (wish_of (map (λ w. string_bytes w) words.now))) (files_view files.old).told
        (files_view files.new).told (sink_view sink.old).taken (sink_view sink.new).taken result }
    ensures lawful { AreLawful (map (λ w. string_bytes w) words.now) → result ≢ Status.Usage }
    ensures lengths { Lengths (wish_of (map (λ w. string_bytes w) words.now)) (files_view files.old).told result }
    ensures proved { result ≡ Status.Proved → IsCertSettled (wish_of (map (λ w. string_bytes w) words.now))
        (files_view files.old).told }
    ensures refuted { result ≡ Status.Refuted → IsCertSettled (wish_of (map (λ w. string_bytes w) words.now))
        (files_view files.old).told }
    ensures complete { Complete (wish_of (map (λ w. string_bytes w) words.now)) (files_view files.old)
        (files_view files.new) (sink_view sink.old) (sink_view sink.new) result }
    ensures unreadable { result ≢ Status.Unreadable }
    ensures write { result ≢ Status.WriteFault }
{
    run(alloc, words, files, sink)
}

/// Answers the words.
fn answer<F: Files, K: Sink>(alloc: Global, words: &[String], files: &mut F, sink: &mut K) -> Status
    ensures answer { Answered (Rose (F.view files.old).faults (F.view files.new).faults)
        (wish_of (map (λ w. string_bytes w) words.now)) (F.view files.old).told
        (K.view sink.old) (K.view sink.new) result }
    ensures causes { HasCauses result (F.view files.old).faults (F.view files.new).faults
        (K.view sink.old).faults (K.view sink.new).faults }
    ensures opened { OpensFiles (files_of (wish_of (map (λ w. string_bytes w) words.now))) (F.view files.old).told
        (F.view files.new).told (K.view sink.old).taken (K.view sink.new).taken result }
{
    match request_in(alloc, words) {
        Ok(request) => serve(alloc, request, files, sink),
        Err(WordsFault::Usage) => end(sink, USAGE, Status::Usage),
        Err(WordsFault::Memory) => Status::Memory,
    }
}

/// What the words ask for.
fn request_in<'a>(alloc: Global, words: &'a [String]) -> Result<Request<'a>, WordsFault>
    ensures ok { IfOk result (λ request. wish_of (map (λ w. string_bytes w) words.now) ≡ Some (wish_asked request)) }
    ensures within { IfOk result IsWithinLimits }
    ensures usage { IsErrOf result WordsFault.Usage → wish_of (map (λ w. string_bytes w) words.now) ≡ None }
{
    match read_words(alloc, words) {
        Ok(asked) => match request_of(&asked) {
            Some(request) => Ok(request),
            None => Err(WordsFault::Usage),
        },
        Err(fault) => Err(fault),
    }
}

/// Does what is asked for.
fn serve<F: Files, K: Sink>(
    alloc: Global,
    request: Request<'_>,
    files: &mut F,
    sink: &mut K,
) -> Status
    requires { IsWithinLimits request }
    ensures answer { Answered (Rose (F.view files.old).faults (F.view files.new).faults)
        (Some (wish_asked request.entry)) (F.view files.old).told (K.view sink.old)
        (K.view sink.new) result }
    ensures causes { HasCauses result (F.view files.old).faults (F.view files.new).faults
        (K.view sink.old).faults (K.view sink.new).faults }
    ensures opened { OpensFiles (files_of (Some (wish_asked request.entry))) (F.view files.old).told
        (F.view files.new).told (K.view sink.old).taken (K.view sink.new).taken result }
{
    match request {
        Request::Plan(list) => plan(alloc, files, sink, list),
        Request::Further(list) => further(alloc, files, sink, list),
        Request::Check { file, plans, mode } => check(alloc, files, sink, file, plans, mode),
        Request::Demo { switches } => show(alloc, switches, sink),
        Request::Prove { file } => prove(alloc, files, sink, file),
        Request::Refute { file, cert } => refute(alloc, files, sink, file, cert),
    }
}

/// `plan`
fn plan<F: Files, K: Sink>(
    alloc: Global,
    files: &mut F,
    sink: &mut K,
    list: ListRequest<'_>,
) -> Status
    requires least { 1 ≤ list.wanted.count }
    requires count { list.wanted.count ≤ 1000000000 }
    requires near { IsNear list.reach }
    ensures answer { Answered (Rose (F.view files.old).faults (F.view files.new).faults)
        (Some (lists (list_asked list.entry))) (F.view files.old).told
        (K.view sink.old) (K.view sink.new) result }
    ensures causes { HasCauses result (F.view files.old).faults (F.view files.new).faults
        (K.view sink.old).faults (K.view sink.new).faults }
    ensures opened { OpensFiles ((Named.File, list.entry.file.now) ∷ []) (F.view files.old).told
        (F.view files.new).told (K.view sink.old).taken (K.view sink.new).taken result }
{
    match task_of(alloc, files, sink, list.file) {
        Ok(task) => list_reached(
            alloc,
            &task,
            list.mode,
            list.search,
            list.wanted,
            list.reach,
            sink,
        ),
        Err(status) => status,
    }
}

/// `plan` after an earlier list
fn further<F: Files, K: Sink>(
    alloc: Global,
    files: &mut F,
    sink: &mut K,
    list: FurtherRequest<'_>,
) -> Status
    requires least { 1 ≤ list.wanted.count }
    requires count { list.wanted.count ≤ 1000000000 }
    ensures answer { Answered (Rose (F.view files.old).faults (F.view files.new).faults)
        (Some (continues (further_asked list.entry))) (F.view files.old).told
        (K.view sink.old) (K.view sink.new) result }
    ensures causes { HasCauses result (F.view files.old).faults (F.view files.new).faults
        (K.view sink.old).faults (K.view sink.new).faults }
    ensures opened { OpensFiles ((Named.File, list.entry.file.now) ∷ (Named.Plans, list.entry.plans.now) ∷ [])
        (F.view files.old).told (F.view files.new).told (K.view sink.old).taken
        (K.view sink.new).taken result }
{
    let task = match task_of(alloc, files, sink, list.file) {
        Ok(task) => task,
        Err(status) => return status,
    };
    match plans_of(alloc, files, sink, list.plans) {
        Ok(blocks) => go_on(
            alloc,
            &task,
            list.mode,
            list.search,
            list.wanted,
            &blocks,
            sink,
        ),
        Err(status) => status,
    }
}

/// `check`
fn check<F: Files, K: Sink>(
    alloc: Global,
    files: &mut F,
    sink: &mut K,
    file: &str,
    plans: &str,
    mode: Mode,
) -> Status
    ensures answer { Answered (Rose (F.view files.old).faults (F.view files.new).faults)
        (Some (checks file.now plans.now mode)) (F.view files.old).told
        (K.view sink.old) (K.view sink.new) result }
    ensures causes { HasCauses result (F.view files.old).faults (F.view files.new).faults
        (K.view sink.old).faults (K.view sink.new).faults }
    ensures opened { OpensFiles ((Named.File, file.now) ∷ (Named.Plans, plans.now) ∷ []) (F.view files.old).told
        (F.view files.new).told (K.view sink.old).taken (K.view sink.new).taken result }
{
    let task = match task_of(alloc, files, sink, file) {
        Ok(task) => task,
        Err(status) => return status,
    };
    match plans_of(alloc, files, sink, plans) {
        Ok(blocks) => judge(alloc, &task, mode, &blocks, sink),
        Err(status) => status,
    }
}

/// `prove`
fn prove<F: Files, K: Sink>(alloc: Global, files: &mut F, sink: &mut K, file: &str) -> Status
    ensures answer { Answered (Rose (F.view files.old).faults (F.view files.new).faults)
        (Some (proves file.now)) (F.view files.old).told (K.view sink.old)
        (K.view sink.new) result }
    ensures causes { HasCauses result (F.view files.old).faults (F.view files.new).faults
        (K.view sink.old).faults (K.view sink.new).faults }
    ensures opened { OpensFiles ((Named.File, file.now) ∷ []) (F.view files.old).told (F.view files.new).told
        (K.view sink.old).taken (K.view sink.new).taken result }
{
    match task_of(alloc, files, sink, file) {
        Ok(task) => cert_run::prove(alloc, &task, sink),
        Err(status) => status,
    }
}

/// `refute`
fn refute<F: Files, K: Sink>(
    alloc: Global,
    files: &mut F,
    sink: &mut K,
    file: &str,
    cert: &str,
) -> Status
    ensures answer { Answered (Rose (F.view files.old).faults (F.view files.new).faults)
        (Some (refutes file.now cert.now)) (F.view files.old).told (K.view sink.old)
        (K.view sink.new) result }
    ensures causes { HasCauses result (F.view files.old).faults (F.view files.new).faults
        (K.view sink.old).faults (K.view sink.new).faults }
    ensures opened { OpensFiles ((Named.File, file.now) ∷ (Named.Cert, cert.now) ∷ []) (F.view files.old).told
        (F.view files.new).told (K.view sink.old).taken (K.view sink.new).taken result }
{
    let task = match task_of(alloc, files, sink, file) {
        Ok(task) => task,
        Err(status) => return status,
    };
    match text_of(alloc, files, sink, Named::Cert, cert) {
        Ok(bytes) => cert_run::refute(alloc, &task, &bytes, sink),
        Err(status) => status,
    }
}

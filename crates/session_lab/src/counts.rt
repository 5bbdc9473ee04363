//! How often each event got each answer.

ghost use Rattle.std.specs.Prelude.{◌<◌};

use orc_ids::Stop;
use session_check::KnownUnit;
use session_model::{Finishing, Reply, Why};
use session_player::Call;
use std::io;

/// The events; a fail by its cause.
const EVENTS: [&str; 24] = [
    "dylib",
    "set_order",
    "attach",
    "define",
    "generate",
    "ask",
    "collect",
    "take",
    "place",
    "resolve",
    "emit",
    "fail(Refused)",
    "fail(Missing)",
    "fail(InError)",
    "fail(AliasCycle)",
    "fail(BadDep)",
    "fail(NoRoom)",
    "fail(NoMemory)",
    "fail(Full)",
    "tracker",
    "move_tracker",
    "remove",
    "image",
    "link",
];

const ANSWERS: [&str; 41] = [
    "NameTaken",
    "TooMany",
    "Made",
    "NoDylib",
    "Set",
    "TrackerGone",
    "Generator",
    "Duplicate",
    "Defined",
    "NoGen",
    "Spent",
    "Offer",
    "InError",
    "Missing",
    "AliasCycle",
    "Done",
    "Pending",
    "Unknown",
    "Open",
    "Found",
    "Lost",
    "Idle",
    "Start",
    "Bound",
    "FinishLost",
    "Defunct",
    "WrongPhase",
    "NoRoom",
    "Placed",
    "Resolved",
    "BadDep",
    "Emitted",
    "Failed",
    "Tracker",
    "OtherDylib",
    "Moved",
    "Removed",
    "Image",
    "JournalFull",
    "NoMemory",
    "passed over",
];

/// The number of a fail for this cause.
fn cause_number(why: Why) -> usize
    ensures { result < 24 }
{
    match why {
        Why::Refused(_, _, _) => 11,
        Why::Missing(_) => 12,
        Why::InError(_) => 13,
        Why::AliasCycle(_) => 14,
        Why::BadDep(_) => 15,
        Why::NoRoom(_) => 16,
        Why::NoMemory => 17,
        Why::Full => 18,
    }
}

/// The number of a call's event.
pub fn event_number(call: &Call<KnownUnit>) -> usize
    ensures { result < 24 }
{
    match call {
        Call::Dylib(_) => 0,
        Call::SetOrder(_, _) => 1,
        Call::Attach(_, _, _) => 2,
        Call::Define(_, _, _) => 3,
        Call::Generate(_) => 4,
        Call::Ask(_, _, _) => 5,
        Call::Collect(_) => 6,
        Call::Take => 7,
        Call::Place(_, _) => 8,
        Call::Resolve(_) => 9,
        Call::Emit(_, _, _) => 10,
        Call::Fail(_, why) => cause_number(*why),
        Call::Tracker(_) => 19,
        Call::MoveTracker(_, _) => 20,
        Call::Remove(_) => 21,
        Call::Image => 22,
        Call::Link(_) => 23,
    }
}

/// The number of a reply.
fn reply_number(reply: &Reply) -> usize
    ensures { result < 38 }
{
    match reply {
        Reply::NameTaken(_) => 0,
        Reply::TooMany => 1,
        Reply::Made(_) => 2,
        Reply::NoDylib(_) => 3,
        Reply::Set => 4,
        Reply::TrackerGone(_) => 5,
        Reply::Generator(_) => 6,
        Reply::Duplicate(_, _) => 7,
        Reply::Defined(_, _, _) => 8,
        Reply::NoGen(_) => 9,
        Reply::Spent(_) => 10,
        Reply::Offer(_) => 11,
        Reply::InError(_) => 12,
        Reply::Missing(_) => 13,
        Reply::AliasCycle(_) => 14,
        Reply::Done(_) => 15,
        Reply::Pending(_) => 16,
        Reply::Unknown(_) => 17,
        Reply::Open => 18,
        Reply::Found(_, _) => 19,
        Reply::Lost(_, _) => 20,
        Reply::Idle(_) => 21,
        Reply::Start(_) => 22,
        Reply::Finish(_, Finishing::Bound(_)) => 23,
        Reply::Finish(_, Finishing::Lost(_)) => 24,
        Reply::Defunct(_) => 25,
        Reply::WrongPhase(_) => 26,
        Reply::NoRoom(_) => 27,
        Reply::Placed(_) => 28,
        Reply::Resolved => 29,
        Reply::BadDep(_) => 30,
        Reply::Emitted => 31,
        Reply::Failed => 32,
        Reply::Tracker(_) => 33,
        Reply::OtherDylib => 34,
        Reply::Moved => 35,
        Reply::Removed => 36,
        Reply::Image => 37,
    }
}

/// The number of an answer.
fn answer_number(answer: &Result<Reply, Stop>) -> usize
    ensures { result < 40 }
{
    match answer {
        Ok(reply) => reply_number(reply),
        Err(Stop::JournalFull(_)) => 38,
        Err(Stop::NoMemory) => 39,
    }
}

/// The answers so far, by event and answer; and the lists.
#[derive(Drop)]
pub struct Counts {
    cells: [[u64; 41]; 24],
    lists: u64,
    wrong: u64,
}

impl Counts {
    pub fn new() -> Counts {
        Counts {
            cells: [[0; 41]; 24],
            lists: 0,
            wrong: 0,
        }
    }

    fn add(&mut self, event: usize, answer: usize)
        requires event { event < 24 }
        requires answer { answer < 41 }
    {
        self.cells[event][answer] = self.cells[event][answer].wrapping_add(1);
    }

    /// The event of this number was answered so.
    pub fn answered(&mut self, event: usize, answer: &Result<Reply, Stop>)
        requires { event < 24 }
    {
        self.add(event, answer_number(answer));
    }

    /// A call of the event was passed over.
    pub fn passed_over(&mut self, event: usize)
        requires { event < 24 }
    {
        self.add(event, 40);
    }

    /// A list is played, of which each answer was a right one or not.
    pub fn played(&mut self, right: bool) {
        self.lists = self.lists.wrapping_add(1);
        if !right {
            self.wrong = self.wrong.wrapping_add(1);
        }
    }

    /// A line for each event and answer that came, and one for all.
    pub fn print(&self, rt: &HostRuntime) -> io::Result<()> {
        for (event, row) in self.cells.iter().enumerate() {
            for (answer, count) in row.iter().enumerate() {
                if *count > 0 {
                    println!(rt; "{} {} {}", EVENTS[event], ANSWERS[answer], count)?;
                }
            }
        }
        println!(rt; "{} lists, {} differ", self.lists, self.wrong)
    }
}

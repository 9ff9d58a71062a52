//! Keywords from bytes. They are told by their first byte, and of those the usual ones are tried first.
ghost use Rattle.std.specs.Prelude.{◌≡◌, true, slice_index_or};
ghost use Rattle.line_text.specs.Words.{keyword_text};
ghost use Rattle.trace_lines.specs.Lexed.{Covers, spelled_in};
ghost use Rattle.trace_lines.specs.Lexing.{Spells};

use line_text::Keyword;

/// Those that begin with `=` or with a letter up to c.
const UP_TO_C: [Keyword; 17] = [
    Keyword::Arrow,
    Keyword::Committed,
    Keyword::Commit,
    Keyword::Begun,
    Keyword::Aborted,
    Keyword::Abort,
    Keyword::Begin,
    Keyword::Acked,
    Keyword::Again,
    Keyword::Asks,
    Keyword::Ask,
    Keyword::Back,
    Keyword::Answers,
    Keyword::Checked,
    Keyword::Check,
    Keyword::Cycle,
    Keyword::Awake,
];

/// Those that begin with d to g.
const D_TO_G: [Keyword; 15] = [
    Keyword::Give,
    Keyword::Did,
    Keyword::Fate,
    Keyword::Done,
    Keyword::Go,
    Keyword::Forgets,
    Keyword::Decides,
    Keyword::End,
    Keyword::Dropped,
    Keyword::Drop,
    Keyword::Dies,
    Keyword::Down,
    Keyword::Epoch,
    Keyword::Doubtful,
    Keyword::Defers,
];

/// Those that begin with h to r.
const H_TO_R: [Keyword; 16] = [
    Keyword::Ignored,
    Keyword::Read,
    Keyword::None,
    Keyword::No,
    Keyword::Initiates,
    Keyword::Number,
    Keyword::Invalid,
    Keyword::Late,
    Keyword::Running,
    Keyword::Idle,
    Keyword::Moved,
    Keyword::Presumes,
    Keyword::Kept,
    Keyword::Halt,
    Keyword::Known,
    Keyword::Large,
];

/// Those that begin with s or t.
const S_AND_T: [Keyword; 10] = [
    Keyword::Sends,
    Keyword::Take,
    Keyword::Step,
    Keyword::Ticket,
    Keyword::Settles,
    Keyword::Site,
    Keyword::Stopped,
    Keyword::Trip,
    Keyword::Set,
    Keyword::Spent,
];

/// Those that begin with u to y.
const U_TO_Y: [Keyword; 12] = [
    Keyword::Value,
    Keyword::Wrote,
    Keyword::Unknown,
    Keyword::Votes,
    Keyword::Unheld,
    Keyword::Yes,
    Keyword::Voted,
    Keyword::Waits,
    Keyword::Unbegun,
    Keyword::Undecided,
    Keyword::Up,
    Keyword::Unfinished,
];

/// How a keyword is spelled.
pub fn spelling(keyword: Keyword) -> &'static str
    ensures { result.now ≡ keyword_text keyword }
{
    match keyword {
        Keyword::Arrow => "=>",
        Keyword::Sends => "sends",
        Keyword::Begin => "begin",
        Keyword::Step => "step",
        Keyword::Commit => "commit",
        Keyword::Abort => "abort",
        Keyword::Fate => "fate",
        Keyword::Go => "go",
        Keyword::Again => "again",
        Keyword::Late => "late",
        Keyword::Give => "give",
        Keyword::Take => "take",
        Keyword::Ask => "ask",
        Keyword::Drop => "drop",
        Keyword::Halt => "halt",
        Keyword::Trip => "trip",
        Keyword::Back => "back",
        Keyword::Check => "check",
        Keyword::None => "none",
        Keyword::Down => "down",
        Keyword::Idle => "idle",
        Keyword::Spent => "spent",
        Keyword::End => "end",
        Keyword::Unfinished => "unfinished",
        Keyword::Unbegun => "unbegun",
        Keyword::Aborted => "aborted",
        Keyword::Set => "set",
        Keyword::Awake => "awake",
        Keyword::Defers => "defers",
        Keyword::Ignored => "ignored",
        Keyword::Waits => "waits",
        Keyword::Voted => "voted",
        Keyword::Acked => "acked",
        Keyword::Forgets => "forgets",
        Keyword::Undecided => "undecided",
        Keyword::Initiates => "initiates",
        Keyword::Large => "large",
        Keyword::Checked => "checked",
        Keyword::Committed => "committed",
        Keyword::Running => "running",
        Keyword::Begun => "begun",
        Keyword::Unheld => "unheld",
        Keyword::Asks => "asks",
        Keyword::Dropped => "dropped",
        Keyword::Read => "read",
        Keyword::Wrote => "wrote",
        Keyword::Dies => "dies",
        Keyword::Invalid => "invalid",
        Keyword::Number => "number",
        Keyword::Stopped => "stopped",
        Keyword::Kept => "kept",
        Keyword::Did => "did",
        Keyword::Done => "done",
        Keyword::Value => "value",
        Keyword::Ticket => "ticket",
        Keyword::Unknown => "unknown",
        Keyword::Votes => "votes",
        Keyword::Yes => "yes",
        Keyword::No => "no",
        Keyword::Moved => "moved",
        Keyword::Settles => "settles",
        Keyword::Answers => "answers",
        Keyword::Presumes => "presumes",
        Keyword::Decides => "decides",
        Keyword::Site => "site",
        Keyword::Cycle => "cycle",
        Keyword::Up => "up",
        Keyword::Epoch => "epoch",
        Keyword::Doubtful => "doubtful",
        Keyword::Known => "known",
    }
}

/// The first byte of a text, 0 where there is none.
pub fn first_byte(text: &[u8]) -> u8
    ensures { result ≡ slice_index_or text.now 0 0 }
{
    match text {
        [first, ..] => *first,
        [] => 0,
    }
}

/// Keywords among which are all that begin with this byte, of two that begin alike the longer one first.
pub fn group_of(first: u8) -> &'static [Keyword]
    ensures { Covers first result.now }
{
    if first <= b'c' {
        &UP_TO_C
    } else if first <= b'g' {
        &D_TO_G
    } else if first <= b'r' {
        &H_TO_R
    } else if first <= b't' {
        &S_AND_T
    } else {
        &U_TO_Y
    }
}

/// The keyword of these that is spelled so.
fn one_of(keywords: &[Keyword], text: &[u8]) -> Option<Keyword>
    ensures { result ≡ spelled_in keywords.now text.now }
{
    for keyword in keywords {
        if spelling(*keyword).as_bytes() == text {
            return Some(*keyword);
        }
    }
    None
}

/// The keyword that is spelled so.
pub fn keyword_of(text: &[u8]) -> Option<Keyword>
    ensures { Spells (λ _. true) keyword_text text.now result }
{
    one_of(group_of(first_byte(text)), text)
}

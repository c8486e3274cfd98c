#![tactic(auto)]
// Codes of the messages that a daemon sends while it works. The names are those of nix-wire.
ghost use Rattle.std.specs.Prelude.{◌≡◌};
ghost use Rattle.codes.specs.Stderr.{code_number, code_of, is_terminal};

const NEXT: u64 = 0x6f6c6d67;

const READ: u64 = 0x64617461;

const WRITE: u64 = 0x64617416;

const LAST: u64 = 0x616c7473;

const ERROR: u64 = 0x63787470;

const START_ACTIVITY: u64 = 0x53545254;

const STOP_ACTIVITY: u64 = 0x53544f50;

const RESULT: u64 = 0x52534c54;

#[derive(Clone, Copy)]
pub enum StderrCode {
    Next,
    Read,
    Write,
    Last,
    Error,
    StartActivity,
    StopActivity,
    Result,
}

impl StderrCode {
    // The code that has this number.
    pub fn from_u64(v: u64) -> Option<StderrCode>
        ensures { result ≡ code_of v }
    {
        match v {
            NEXT => Some(StderrCode::Next),
            READ => Some(StderrCode::Read),
            WRITE => Some(StderrCode::Write),
            LAST => Some(StderrCode::Last),
            ERROR => Some(StderrCode::Error),
            START_ACTIVITY => Some(StderrCode::StartActivity),
            STOP_ACTIVITY => Some(StderrCode::StopActivity),
            RESULT => Some(StderrCode::Result),
            _ => None,
        }
    }

    // The number by which the code travels.
    pub fn number(self) -> u64
        ensures { result ≡ code_number self }
    {
        match self {
            StderrCode::Next => NEXT,
            StderrCode::Read => READ,
            StderrCode::Write => WRITE,
            StderrCode::Last => LAST,
            StderrCode::Error => ERROR,
            StderrCode::StartActivity => START_ACTIVITY,
            StderrCode::StopActivity => STOP_ACTIVITY,
            StderrCode::Result => RESULT,
        }
    }

    // Does the loop end at this code?
    pub fn is_terminal(self) -> bool
        ensures { result ≡ is_terminal self }
    {
        let n = self.number();
        (n == LAST) | (n == ERROR)
    }
}

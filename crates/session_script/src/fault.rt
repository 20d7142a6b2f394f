//! Why runs with sessions fail.

use history::Operator;
use sessions::RunError;
use shared_admin::CloseFault;
use std::fmt;
use std::fmt::{Display, Formatter, Write};
use unit_script::RunFault;

/// Why a run with sessions failed. Its text is the program's message.
#[derive(Clone, Copy, Debug)]
pub enum SessionsFault {
    /// An error of a run without sessions.
    Run(RunFault),
    /// The script has calls of more than sixteen operators.
    TooManySessions,
    /// The system could not start a thread for an operator.
    NoWorker,
    /// The replies that sessions received don't match the history: none of the output was written.
    Close(CloseFault),
}

/// An operator's name, as it is displayed.
fn name_of(operator: &Operator) -> &str {
    str::from_utf8(operator.text()).unwrap_or("?")
}

fn write_close_fault<W: Write>(fault: &CloseFault, f: &mut Formatter<W>) -> fmt::Result {
    match fault {
        CloseFault::Missing(operator) => write!(f, "log of {} is missing", name_of(operator)),
        CloseFault::Stranger(operator) => write!(f, "log of {} is strange", name_of(operator)),
        CloseFault::Mismatch(operator, place) => {
            write!(f, "log of {} differs at {place}", name_of(operator))
        }
        CloseFault::OtherTree => f.write_str("first tree differs"),
    }
}

impl Display for SessionsFault {
    fn fmt<W: Write>(&self, f: &mut Formatter<W>) -> fmt::Result {
        match self {
            SessionsFault::Run(fault) => write!(f, "{fault}"),
            SessionsFault::TooManySessions => f.write_str("more than 16 operators"),
            SessionsFault::NoWorker => f.write_str("a worker could not be started"),
            SessionsFault::Close(fault) => write_close_fault(fault, f),
        }
    }
}

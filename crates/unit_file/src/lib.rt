//! Unit files: systemd.syntax(7), and the [Install] section of systemd.unit(5). Notices say which
//! of its words were skipped.
#![tactic(auto)]

mod default_instance;
mod fault;
mod install;
mod laws;
mod line;
mod listed;
mod notice;
mod notice_line;
mod notices;
mod reading;
mod word;

pub use default_instance::identity;
pub use fault::{InstallError, InstallFault, MAX_LINE};
pub use install::InstallText;
pub use laws::{comments_say_nothing, files_add_up, last_line_ends_itself, notices_are_a_set};
pub use line::{is_blank, stripped};
pub use listed::{is_template, listed_name};
pub use notice::{Notice, NoticeKey, Reason};
pub use notices::{Notices, NoticesIter};
pub use reading::install_of;
pub use word::{Word, Words};

//! Paths by names: for each name a list of paths, in parts that copies share.
#![tactic(auto)]

mod bucket;
mod name_lists;
mod path_list;
mod place;
mod relisting;
mod shelf;

pub use name_lists::NameLists;
pub use path_list::Listing;
pub use relisting::relisted;

mod chains;
mod looking;
mod names;
mod places;
mod trees;

mod going_on;
mod indexes;
mod listing;
mod looking_up;

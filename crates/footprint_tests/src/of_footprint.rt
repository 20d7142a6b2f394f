mod at_once;
mod copying;
mod observing;
mod texts;
mod touching;

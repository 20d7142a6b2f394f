mod names;
mod words;

mod applying;
mod capturing;
mod fake;
mod large;
mod parts;
mod root;

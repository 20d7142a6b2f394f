mod between;
mod large;

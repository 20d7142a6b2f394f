mod again;
mod commands;
mod composites;
mod disabling;
mod enabling;
mod large;

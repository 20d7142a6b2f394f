mod paths;
mod slots;
mod targets;

mod either_order;
mod large;

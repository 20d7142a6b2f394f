mod faults;
mod interruptions;
mod lines;
mod writes;

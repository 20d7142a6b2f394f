mod files;
mod lines;
mod patterns;
mod verdicts;

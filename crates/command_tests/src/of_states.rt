mod asking;
mod depending;

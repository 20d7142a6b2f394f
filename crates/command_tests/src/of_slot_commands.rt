mod adds;
mod both;
mod defaults;
mod hands;
mod links;
mod masks;

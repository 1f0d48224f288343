mod masks;
mod servers;
mod starts;
mod verdicts;
mod world;

mod drawn;
mod known;
mod runs;

mod five;
mod servers;
mod worlds;

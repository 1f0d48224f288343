mod sessions;
mod trial;
mod view;
mod worlds;

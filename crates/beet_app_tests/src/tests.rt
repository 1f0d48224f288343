mod frame;
mod meeting;
mod refused;
mod sales;
mod sessions;
mod sources;
mod transcript;

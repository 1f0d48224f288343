mod auction;
mod ends;
mod links;
mod meeting;

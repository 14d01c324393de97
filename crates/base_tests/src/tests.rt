mod base;
mod closing;
mod logs;
mod places;
mod streams;
mod words;

mod journals;
mod lines;
mod texts;

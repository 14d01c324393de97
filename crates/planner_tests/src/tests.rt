mod known_spans;
mod own_writes;
mod texts;

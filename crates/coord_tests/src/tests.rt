//! A transaction is taken through each of its steps, and what it asks is compared field by field.

mod courses;
mod ends;
mod replies;
mod retries;
mod scripts;
mod steps;
mod texts;

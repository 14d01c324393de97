mod made_tables;
mod rows;
mod searches;

//! Tests of the judges of texts of tables.
#[cfg(test)]
mod sections;

//! What the clauses of the top call refuse: lemmas over the clauses alone, and no code. docs/WRONG_BODIES.md lists them.

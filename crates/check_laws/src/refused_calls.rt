//! What the clauses of the calls refuse: lemmas over the clauses alone, and no code. Each says that where a clause
//! holds a wrong outcome doesn't, whatever body met it. docs/WRONG_BODIES.md lists them.

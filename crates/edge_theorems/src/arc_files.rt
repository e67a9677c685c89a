// Theorems only: which lines `edgebox` can print of a file of arcs in range. See specs/ArcFiles.antt and proofs/ArcFiles.antt.

// What the order of a file's arcs does to the printed line is proved in specs/FileBoxes.antt. There is no code of its own.

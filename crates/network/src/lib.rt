// Cells, working, renumbering and the listing: definitions and theorems alone.

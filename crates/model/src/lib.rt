// The run as plain functions on lists, tied to the equations by laws: definitions and theorems alone.

// Rows that are read back: each function stands for the statement that its contract names.
ghost use Rattle.print.specs.Back.{RowsReadBack, RowsReadAgain};

/// A printed row of numbers says these numbers.
pub fn rows_read_back()
    ensures { RowsReadBack }
{}

/// The reader of documents reads a printed row of numbers that are 0 or more.
pub fn rows_read_again()
    ensures { RowsReadAgain }
{}

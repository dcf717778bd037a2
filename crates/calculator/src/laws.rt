// What holds of every number, command and script. A function here does nothing when it is run:
// a call that calls it promises its law beside its own answer.
ghost use Rattle.calculator.specs.Laws.{AnswersStand, CommandsParse, CommentsPass, LinesAnswered, NumbersReadBack, WritesReadBack};

// The digits that are written of a number are read as that number.
pub(crate) fn numbers_read_back()
    ensures { NumbersReadBack }
{}

// Every command can be written, and its line is parsed as that command.
pub(crate) fn commands_parse()
    ensures { CommandsParse }
{}

// After a write, a read of the same register is answered as the write was.
pub(crate) fn writes_read_back()
    ensures { WritesReadBack }
{}

// A blank line or a comment prints nothing, and leaves the bank as it is.
pub(crate) fn comments_pass()
    ensures { CommentsPass }
{}

// What is printed of some lines is not changed by the lines after them.
pub(crate) fn answers_stand()
    ensures { AnswersStand }
{}

// Each line that is neither blank nor a comment is answered by one line.
pub(crate) fn lines_answered()
    ensures { LinesAnswered }
{}

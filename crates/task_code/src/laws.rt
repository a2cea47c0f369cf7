//! Laws of tasks, each the contract of a function that does nothing.

ghost use Rattle.task_code.specs.Example.{ExampleIsDone};
ghost use Rattle.task_code.specs.Tasks.{AppendedWordsStand};

/// Words that were appended stand in each text that goes on from there.
pub fn appended_words_stand()
    ensures { AppendedWordsStand }
{}

/// A phase of two tasks over a text of 13 words meets all that is asked of tasks: each leaves its number and 7 in its
/// own word.
pub fn two_tasks_are_done()
    ensures { ExampleIsDone }
{}

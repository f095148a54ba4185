//! How the words are split is how they are defined.
ghost use Rattle.std.specs.Prelude.{◌≡◌, ℕ, List};
ghost use Rattle.std.specs.List.{All};
ghost use Rattle.std.specs.Str.{IsUtf8};
ghost use Rattle.a68_command.specs.Matching.{split_task};
ghost use Rattle.a68_command.specs.Words.{task_in};

/// A law: words that are texts are split into the task that they ask for.
pub fn splits_are_tasks()
    ensures { (words : List (List ℕ)) → All IsUtf8 words → split_task words ≡ task_in words }
{}

//! Laws on what the commands do.
ghost use Rattle.nav_doors.specs.Connections.{outside};
ghost use Rattle.nav_serve.specs.Laws.{BadWordsAreNoCommand, CommandsHaveOneOutput, IsTask};
ghost use Rattle.nav_serve.specs.declared.words.Command.TheVariants as command;
ghost use Rattle.nav_serve.specs.declared.tasks.Task.TheVariants as task;

use nav_demo::trees_have_one_summary;
use nav_io::Door;
use nav_lsp::messages_have_one_script;
use nav_session::lines_have_one_script;

/// A law: `once` and `upgrade` do what the definition of a task says of each, and use neither the
/// house, the board nor the steps.
pub fn once_and_upgrade_are_tasks<D: Door>()
    ensures once { IsTask
        (outside D.gave D.got_back D.faults D.S.left D.S.faults D.K.held D.K.faults)
        command.Once task.Once }
    ensures upgrade { IsTask
        (outside D.gave D.got_back D.faults D.S.left D.S.faults D.K.held D.K.faults)
        command.Upgrade task.Upgrade }
{}

/// A law: a command writes one output to an input, and tells with one status that all of it is
/// written. So what the program writes on a board of its own is a function of its words and its input,
/// and so is the status, where nothing outside fails and no memory is refused.
pub fn commands_have_one_output()
    ensures { CommandsHaveOneOutput }
{
    lines_have_one_script();
    messages_have_one_script();
    trees_have_one_summary();
}

/// A law: no command ends with 2, so that status alone tells that the words are none.
pub fn two_tells_of_no_command()
    ensures { BadWordsAreNoCommand }
{}

//! Laws of turns: what was put is the front of the file.

ghost use Rattle.std.specs.Prelude.{◌≡◌, ℕ, true, length};
ghost use Rattle.session_model.specs.Courses.{DiskFile};
ghost use Rattle.session_model.specs.Disks.{blocks_of};
ghost use Rattle.disk_player.specs.Files.{HasPut, PlaysFile};
ghost use Rattle.disk_player.specs.Playing.{Playing};
ghost use Rattle.disk_player.specs.Turning.{Breaks, Turns};
ghost use Rattle.disk_player.specs.declared.player.TurnEnd.{TurnEnd as TurnEndValue};

/// What a player of a file put are the file's first blocks, and all of them where the end stands.
pub fn a_player_has_put_blocks_of_its_file()
    ensures { (file : DiskFile) (period : ℕ) (playing : Playing) → PlaysFile file period playing → HasPut file period playing.sending }
{}

/// A turn goes on with the file, and its end stands where all blocks of the file are put.
pub fn a_turn_goes_on_with_its_file()
    ensures plays { (file : DiskFile) (period most : ℕ) (before after : Playing) (turn : TurnEndValue) → PlaysFile file period before → Turns most before after turn → PlaysFile file period after }
    ensures ends { (file : DiskFile) (period most : ℕ) (before after : Playing) (turn : TurnEndValue) → PlaysFile file period before → Turns most before after turn → length after.sending.put ≡ blocks_of file period → after.sending.ended ≡ true }
{}

/// Behind a turn in which a read failed, too, what was put are the file's first blocks.
pub fn a_broken_turn_has_put_blocks_of_its_file()
    ensures { (file : DiskFile) (period most : ℕ) (before after : Playing) → PlaysFile file period before → Breaks most before after → HasPut file period after.sending }
{}

// What the program tells of itself.

pub const HELP: &str = "pose: carries out a script of editing sessions and exports

  pose FILE      the script in FILE
  pose           the script on standard input
  pose --help    this text

One command a line; # starts a comment. Each command but help prints one line.

  kind ticks|residues|sizes   the number kind; closes any session
  room L                      the length of the register row at the next open
  open N C0 C1 ..             opens a session of N controls
  set I X                     sets a control
  add LINE                    adds a line and prints its register
  change R LINE               puts another line at register R
  drop                        drops the last line
  value R                     the value of a register
  gradient R                  its derivative along each control
  slope R D0 D1 ..            its derivative along a direction
  bend R D0 D1 ..             its second derivatives along a direction and each control
  exact R D0 D1 ..            value and slope in whole numbers (ticks only)
  steps D0 D1 .. : R1 R2 ..   the steps that keep the signs of registers (ticks only)
  waiting                     the lowest line that is to be worked out again
  controls                    the controls as they are
  save                        the session's tape as a packed file
  load HEX                    looks at a packed file
  export QUERY R HEX C0 ..    value or gradient of a packed file at controls
  export QUERY R HEX C0 .. : D0 ..    slope or bend of a packed file
  help                        this text

LINE is constant X, add A B, subtract A B, multiply A B or opposite A, of registers below its own.
A declined call prints its number, what it names, and why. A line that cannot be read prints an error, and changes nothing.";

//! The texts that `--help` shows after the options.

pub(crate) static SAMPLES_HELP: &str = "Compute the heat in a rod of three cells:
  printf '9000\\n300\\n-60\\n' | samples heat 1 2 --nodes 2

Draw a run:
  tp run wavefront:4:4:0 --nodes 2 --trace | samples draw run > run.svg

Each subcommand has its own --help.";

pub(crate) static HEAT_HELP: &str =
    "The cells are read from standard input, one 64-bit integer per line, and the
rod after the steps is printed, one integer per line. In a step each cell
becomes the sum of a third of its left neighbour, a third of itself and a third
of its right neighbour, each rounded towards 0; beyond both ends there is 0.
The output does not depend on BLOCK, N and W. On a terminal, standard error
shows a prompt for typed input, and the progress of a run of more than half a
second.

An example:
  printf '9000\\n300\\n-60\\n' | samples heat 1 2

The exit status is
  0  if the rod was printed;
  1  if the arguments are wrong, the input cannot be read, or the output or the
     FILE of --profile cannot be written;
  2  if a line is not a 64-bit integer, there is no line, or BLOCK is so small
     that one step takes more than the 1,048,576 events of a run: a block takes
     1 for each of its 1 to 3 inputs and 2 more, or 3 before the first step,
     and each message to another node takes 3;
  3  if the run is refused or an allocation fails.";

pub(crate) static PRODUCT_HELP: &str =
    "Two square matrices of the same size are read from standard input. Each row is
a line of 64-bit integers, separated by single spaces, and an empty line
separates the matrices. Their product is printed in the same form. It is
computed in tiles of SIDE rows and columns; SIDE has to divide the number of
rows. The output does not depend on SIDE, N and W. On a terminal, standard
error shows a prompt for typed input, and the progress of a run of more than
half a second.

An example:
  printf '1 2\\n3 4\\n\\n5 6\\n7 8\\n' | samples product 1

The exit status is
  0  if the product was printed;
  1  if the arguments are wrong, the input cannot be read, or the output or the
     FILE of --profile cannot be written;
  2  if the input has another form, there are 32,768 rows or more, SIDE does
     not divide their number, or SIDE is so small that the product takes more
     than the 1,048,576 events of a run: with T tiles along a side, each of T *
     T * T tasks takes 3 and, on several nodes, each of T * T * (T - 1)
     messages takes 3;
  3  if a number leaves 64 bits, the run is refused, or an allocation fails.";

pub(crate) static RELAX_HELP: &str =
    "A grid of 64-bit integers is read from standard input. Each row is a line, whose
numbers are separated by single spaces, and all rows have the same length. The
grid after the steps is printed in the same form. In a step each cell becomes an
eighth of the sum of its four neighbours and four times itself, rounded down; a
cell on the edge does not change. The output does not depend on ROWS_A_BLOCK, N
and W. On a terminal, standard error shows a prompt for typed input, and the
progress of a run of more than half a second.

An example:
  printf '0 16 32 0\\n8 0 0 24\\n0 0 64 0\\n' | samples relax 2 1

The exit status is
  0  if the grid was printed;
  1  if the arguments are wrong, the input cannot be read, or the output or the
     FILE of --profile cannot be written;
  2  if the input has another form or no line, a block has 4,294,967,296 cells
     or more, or ROWS_A_BLOCK is so small that one step takes more than the
     1,048,576 events of a run: a block takes 1 for each of its 1 to 3 inputs
     and 2 more, or 3 before the first step, and each message to another node
     takes 3;
  3  if the run is refused or an allocation fails.";

pub(crate) static POOL_HELP: &str =
    "The table of the pool's result is printed, then the number of tasks, the number
of messages, and `ended`, as `tp run SPEC` prints them.

An example:
  samples pool wavefront:64:64:0 --workers 4 --timing 5

The exit status is
  0  if these lines were printed;
  1  if the arguments are wrong, or the output cannot be written;
  3  if the run is refused or an allocation fails.";

pub(crate) static PATTERNS_HELP: &str =
    "The tasks are STEPS rows of WIDTH columns. The pattern says which columns of a
row feed a column of the next row. A task adds its inputs, its column and 1,
and then runs the kernel ITERATIONS times: x becomes x * (2 * x + 1) +
1013904223, mod 2147483648. The tasks run on N nodes with W threads each; a
node has neighbouring columns, and values go from node to node as messages.

After the detector has reported termination, the checksum is printed, which is
the sum of the last row's numbers mod 2147483648, and then the number of tasks,
the number of messages, and `ended`. The checksum does not depend on N and W;
the number of messages depends on N.

Examples:
  samples patterns --list
  samples patterns stencil 16 100 50 --nodes 2 --workers 2
  samples patterns nearest 32 50 1000 --radius 5

The exit status is
  0  if these lines or the list was printed;
  1  if the arguments are wrong, or the output or the FILE of --profile cannot
     be written;
  2  if a task has more than 16 inputs, or the tasks take more than the
     1,048,576 events of a run: a task takes 1 for each input and 2 more, or 3
     if it has no inputs;
  3  if the run is refused, for example because its tasks, messages and waves
     take more events than that (a message takes 3), or an allocation fails.";

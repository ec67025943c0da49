// How the program is called.

/// The commands, and the ranges of their numbers.
pub const USAGE: &str = "usage: dd_cli FLASH DISK COMMAND

  replay BLOCK ACAP BCAP
      serve the script of reads on standard input; the flash is scratch
  format BLOCK BLOCKS ACAP BCAP SPARE GROUP LOG
      make the flash ready to keep the cache
  serve
      serve the script of reads and writes on standard input; the cache is kept
  gen SEED COUNT
      serve COUNT commands that SEED generates, and sum them up; the cache is kept

FLASH and DISK are two files or block devices that exist, open for reading and writing.

  BLOCK   bytes of a block: 16 to 4096, a multiple of 16
  BLOCKS  blocks of the disk: 1 to 16777216
  ACAP    addresses that are listed at most: 1 to 65536
  BCAP    distinct blocks that are listed at most: 1 to 65536
  SPARE   slots of the flash beyond BCAP: 1 to 1024
  GROUP   records of a commit at most: 8 to 1024
  LOG     bytes of the log of records: 8 + 48 * GROUP to 16777216
  SEED    0 to 18446744073709551615
  COUNT   0 to 4294967295";

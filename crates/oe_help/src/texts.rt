//! The texts of the help.

pub(crate) const ABOUT: &str =
    "An order-entry server with the tables, transactions and audits of TPC Benchmark C 5.11";

pub(crate) const SCRIPT: &str = "Answers the script in FILE, or on standard input";

pub(crate) const VERSION: &str = "0.1.0";

pub(crate) const SERIAL: &str =
    "Checks another engine's replies in FILE against its transactions run one at a time";

pub(crate) const DRIVE: &str = "Runs terminals in threads of their own, and checks what they left";

pub(crate) const AUDIT: &str =
    "Audits the nine tables of any engine: a directory of files, a dump, or standard input";

pub(crate) const LOAD: &str =
    "Prints a load of terminals' requests, as a script, one request a line, or a table";

pub(crate) const LOAD_WORDS: &str =
    "the seven numbers come first, or --from DIR and the last four of them; then --kinds or --mix, \
--first, and --flat or --busy; a kind is neworder, payment, status, delivery or level; \
R + N - 1 is at most 1000000000";

pub(crate) const USAGE: &str = "oe_server script [--explain] < FILE
       oe_server script [--explain] FILE
       oe_server script --from DIR [--extents E] [--layout L] [FILE]
       oe_server serial FILE [--from DIR] [--tables DIR2] [--csv]
       oe_server drive W C I E T N SEED [--commits FILE] [--busy]
       oe_server audit DIR [--before DIR2] [--csv] [--first N] [--initial N] [--json]
       oe_server audit FILE [--first N] [--initial N] [--json]
       oe_server audit - [--first N] [--initial N] [--json]
       oe_server load W C I E T N SEED [--kinds KIND,.. | --mix] [--first R] [--flat | --busy]
       oe_server load --from DIR E T N SEED [--kinds KIND,.. | --mix] [--first R] [--flat | --busy]
       oe_server --help | --version";

pub(crate) const FORMS: &str = "\
A script is a list of lines. The program answers each on standard output before it reads the
next. A line has words with one space between them, at most 1024 bytes, and a newline. The forms
of lines and the ranges of their columns come last. What each line does, and after the colon its
answer:

  open               comes first, and once: it makes warehouses with 10 districts each, the
                     customers of each district, items and undo extents: opened
  begin .. payment   the terminal begins a payment: a customer of any district pays an amount
                     at a district: begun
  begin .. neworder  the terminal begins an order; an item that open did not make is not valid:
                     begun
  begin .. delivery  the terminal begins the delivery of the oldest undelivered order of the
                     district; without a district it does so in each of the warehouse's ten
                     districts, as one transaction, whose mark moves before each: begun
  begin .. rename    the terminal begins a change of a customer's last and first name: begun
  next               runs the next stage of the terminal's transaction: more, or, at its end,
                     commit MOMENT payment CUSTOMER LAST_NAME CREDIT BALANCE, or
                     commit MOMENT neworder ORDER LAST_NAME CREDIT TOTAL and for each item
                     B:STOCK:AMOUNT (B if item and stock are both original) or
                     G:STOCK:AMOUNT, or
                     commit MOMENT delivery ORDER CUSTOMER SUM, or
                     commit MOMENT delivery skipped, if no order waits, or
                     commit MOMENT deliveries and for each district
                     DISTRICT:ORDER:CUSTOMER:SUM or DISTRICT:skipped, or
                     commit MOMENT rename CUSTOMER LAST_NAME FIRST_NAME
  run                runs its stages up to the first one that is not answered more, and
                     prints the answer of that stage only
  save               sets the mark of the terminal's transaction: saved
  back               undoes its stages since the mark: back
  rollback           undoes all its stages, and ends it: rolled back
  read .. status     the balance and the newest order of a customer at a moment: now, which is
                     the number of commits, or a lesser number; open work is not seen:
                     status CUSTOMER BALANCE ORDER STAMP CARRIER, and for each line
                     SUPPLY:ITEM:QUANTITY:AMOUNT:STAMP of the delivery (- for no carrier or no
                     delivery), or status CUSTOMER BALANCE no order
  read .. level      how many items of the district's last 20 orders have less stock in its
                     warehouse than the threshold, at a moment: level COUNT
  audit              audits a condition at a moment: condition N holds, or condition N fails
                     at, and the key of the first row at which it fails
  purge              makes the moment the oldest that can be read; the tables stay: purged
                     MOMENT
  rewind             takes the commits after the moment back, while nothing is open: rewound
                     MOMENT
  dump               shows a table: a line for each row, and rows COUNT
  waits              shows each terminal T that waits, the lock and its holders: T waits NAME
                     MODE for HOLDERS; the terminals that wait for one another: cycle and them,
                     or no cycle; and rows COUNT
  locks              shows each lock that a transaction holds: T NAME MODE; and rows COUNT

A refused line is answered error NUMBER CAUSE, and changes nothing. Three refusals of a stage
roll its transaction back: Overflow, NoCustomer and an item that is not valid. Every other line
is answered error 1 BadLine and its number, counted from 1. With --explain a line on standard
error says why: line NUMBER: REASON.

A drive has W warehouses, C customers in each district, I items and E undo extents, like a
script's open; T terminals (1 to 63) send N requests each (1 to 1000), which SEED
(0 to 4294967295) makes. Each terminal has a thread, and one more thread carries the
deliveries out. At the end the program audits conditions 1 to 4, rewinds to moment 0 and compares
the tables with a new population. It writes two lines:
  conditions 1 2 3 4 hold, or condition N fails
  population restored, or population differs
With --commits it writes the commits to FILE, in the order of their moments, as a file of replies.
With --busy standard error shows how often each kind of lock was busy (KIND Busy n), the longest
run of answers Busy of one transaction, and how many transactions were given up.

A file of replies begins with a line open W C I E, like a script. Each other line is a request and
the reply of another engine, in the order of the engine's commits: T, the words of a request as in
begin T, or of a query as in read MOMENT, then \" => \", and the reply as in commit MOMENT, or
error NUMBER CAUSE if it was refused. The program writes one line:
  serial COUNT       each reply is right: its request or query, run alone after those above it,
                     has this reply
  line N: \"REPLY\", in this order \"REPLY\", and line N: WORD VALUE, in this order VALUE
                     the first line whose reply is wrong, and its first word that differs,
                     and (KEY was changed last by line M) if a line above changed its row
or, on standard error, why lines have no form (line N: REASON).
If the replies are serial and --tables names a directory, it reads the files warehouse, district,
customer, history, neworder, order, orderline, item and stock there: a line for each row, with the
columns of a dump. With --csv these are comma-separated values: a field may have quotes, an empty
field of a column that may be null is null, and the first line may be a heading.
It compares their rows with the tables that these transactions leave. For each table that differs
it writes the first row that differs, and at the end how many tables differ:
  KEY: no such row in the file, or KEY: no such row in this order
  KEY: COLUMN VALUE, in this order VALUE
  history COLUMNS: more often in the file, or more often in this order
  TABLE differs at COUNT more
  same 9 of 9 tables, or differs in COUNT of 9 tables

With --from the population comes from nine such files of a directory; the key of a HISTORY row is
terminal 0 and the number of its line. A file of replies then begins with open E, or open E LAYOUT.
A script begins opened, with E undo extents (2 to 4096, else 4096) and layout L (1 or 2, else 1),
and has no open. A directory that is no population is refused on standard error, with one thing
that it lacks:
  no population: KEY: no KEY, or condition N fails KEY, or no stock W I

An audit reads the files of the nine tables in DIR, or one dump of all tables in FILE or on
standard input, which has a section COPY TABLE (COLUMNS) FROM stdin; for each table, as pg_dump -a
writes it. A file has the name of its table, alone or with .txt, .tbl, .tsv or .csv. A line is a
row, with tabs between its fields, or commas with --csv. A first line that names columns is a
heading; without one the columns have the order of a dump. The report has how many rows were read,
and of each of 24 checks that it holds, or each row at which it fails with the two figures that
differ, or the first N such rows (1 to 4294967295) and how many more there are:
  CHECK holds, or CHECK fails KEY: FIGURE, FIGURE, or CHECK fails at COUNT more
  holds 24 of 24 checks, or fails COUNT of 24 checks: and their names
--initial N says how many orders each district had at first. Without it that is the number of
customers of a district, and CUSTOMER rows must come before those of orders. --json writes the
report as JSON.

A load has a drive's seven numbers, with N up to 1000000000: T terminals ask for N transactions
or queries each, which SEED makes, by the standard's weights or of the kinds that --kinds names
(neworder, payment, status, delivery, level). It writes a script in which their stages overlap,
and whose only refusals are Busy: each terminal's first transaction begins before any goes on, a
rollback ends each cycle of waits, and purge now makes room. With --flat it writes the opening,
and for each request a line T REQUEST. With --busy it writes how terminals met in that script:
  KIND S n X n Busy n cycles n: locks taken, answers Busy, and rollbacks that break cycles
  Busy n NAME: the ten names that were busy most often; and longest wait n: in lines
With --first R each terminal begins with its R-th request, and loads can follow one another; R +
N - 1 is at most 1000000000. With --mix 1 in 100 orders asks for an item that is not valid, and is
answered error 12 and rolled back; without it no order does. With --from the load begins on the
nine files in DIR, whose rows give the scale: its script is one for script --from DIR --extents E,
and has no open; with --flat the opening is open E. If such a load may ask for a row that the
files lack, it is refused on standard error:
  no load: no KEY, or no load: KEY: no customer NAME

The status is 0 at the end of a script's input, whatever the answers, for a file of replies
that is serial and whose tables are the same, for a drive whose conditions hold and whose
population is restored, for an audit that finds nothing, and for a load that is written whole;
1 for any other file of replies, drive, audit or load, after a fault, which standard error
names (fault: read, fault: write, fault: output closed, fault: no memory, fault: no undo
extents), and for a FILE that can't be opened; and 2 if the command line is none of these,
a line of a file of replies has no form, or a file of tables can't be read; an audit without
memory or output ends with 3.
docs/SCRIPTS.md is the manual: stages, locks, refusals and columns; examples/ has scripts.";

pub(crate) const DRIVE_WORDS: &str =
    "a number is digits alone, without a leading 0; after the numbers --commits FILE comes first, \
then --busy";

pub(crate) const SCRIPT_WORDS: &str =
    "--explain comes right after script, and then FILE; or --from DIR, and then \
--extents E from 2 to 4096, --layout 1 or 2, and FILE";

pub(crate) const AUDIT_WORDS: &str =
    "DIR, FILE or - comes first, --before DIR2 right after it, then --csv, --first N, \
--initial N and --json; N is digits alone";

pub(crate) const SERIAL_WORDS: &str =
    "FILE comes first, then --from DIR, --tables DIR2 and --csv, in this order";

pub(crate) const NO_FILE: &str = "FILE is missing";

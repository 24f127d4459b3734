//! The texts of the help.

/// The version of the program, and that of the form of its canonical files.
pub const VERSION: &str = "0.1.0 (canonical form 1)";

/// What stands below the help of the program.
pub const PROGRAM: &str = "Answers go to standard output, one line of a fault to standard error.

Statuses: 0 the answer; 1 refused, different or not found; 2 the command line has a
mistake; 3 memory ran out, or a file could not be opened, read or written.

p21 COMMAND --help says more on each command, and which slips are common with it;
p21 faults lists the refusals. The path - is standard input, once in a command line.
Lines behind a fault that begin with note: say why a file could not be read, or what it
is where another one was wanted.";

/// What stands below the help of `param`.
pub const PARAM: &str =
    "Two parameters mean the same exactly if their canonical spellings are equal.

Answer: one line with the spelling; or, on standard error, a line as
    refused 12 NotOneParameter
Statuses: 0 the spelling; 1 refused; 2 a wrong command line; 3 out of memory, cannot
open, read or write.

Slips:
  - FILE is a path and not the parameter itself: p21 param 1.50 says cannot open 1.50.
  - From a pipe: printf %s 1.50 | p21 param -
  - A string has its apostrophes in the file too: ABC without them is refused as 12.

Example, where param.txt holds +012.500E+03:
    $ p21 param param.txt
    1.25E4";

/// What stands below the help of `schema`.
pub const SCHEMA: &str =
    "Answer: the line SCHEMA NAME, then for each entity its name and, in parentheses, its
attributes with those of its supertypes, in the order of a file: * for one that is
derived, ABSTRACT in front of an entity that needs a subtype. Or, on standard error:
    schema refused S5 Circular
Statuses: 0 the schema; 1 refused; 2 a wrong command line; 3 out of memory, cannot open,
read or write.

Slips:
  - schema refused S2 Syntax: S is a file of the model and not its schema, or a listing
    of several schemas.
  - schema refused S1 Token: the text begins with a byte order mark, say.
  - schema refused S6 or S9: p21-adapt makes a copy of a listing that fits.
  - From a pipe: unzip -p listing.zip | p21 schema -

Example, where point.exp holds
SCHEMA s; ENTITY point; x : REAL; y : REAL; END_ENTITY; END_SCHEMA;
    $ p21 schema point.exp
    SCHEMA S
    POINT(X,Y)";

/// What stands below the help of `syntax`.
pub const SYNTAX: &str =
    "What the standard says of a file by itself: its bytes, tokens and grammar, its header with
the schema that it names, names of sections and instances that are given once, and
references with a target. What its values mean a schema says: p21 check S FILE.

Answer: one line that counts the instances and names the schema; or, on standard error,
the first refusal and where it comes, with the number that check gives:
    refused 20 Unexpected at statement 7
    refused 56 Dangling in #9
With --header a line follows for each text of the header, strings decoded: description,
implementation level, file name, time stamp, author, organization, preprocessor version
(the program that wrote the file), originating system, authorization, schema. With --count
a line follows for each keyword, with how many records have it, in the order of bytes; of an
instance with several parts each part is counted.
With --all all refusals are listed in place of the first one, and how many: it goes on behind
an instance whose name was given before, and behind a broken statement of a data section.
With --most N as many as N, and it says that no more were looked for.
With --where a second line has the place of the refusal, where it has one: file, line and
column, both from 1 on, the column in bytes; with --all and --most each line has it. That of
a reference has none:
    part.step:11:31: 20 Unexpected at statement 10
    refused 56 Dangling in #9
With --format jsonl each refusal is a JSON object on a line, with its place, and of 20 and 30
with what could stand there.
With several files, or @LIST for the files that a text names, a path a line, each line has
the name of its file in front. A file that is refused or can't be read doesn't end the
run; the status is the highest.
Statuses: 0 well formed; 1 refused; 2 a wrong command line; 3 out of memory, cannot open,
read or write.

Slips:
  - refused 20 Unexpected at statement 1: FILE is a schema, say; p21 schema FILE reads it.
  - refused 31 SchemaName: the FILE_SCHEMA begins with no name, or a section names another.
  - From a pipe: gunzip -c part.step.gz | p21 syntax -
  - Many files: find . -name '*.step' | p21 syntax @-
  - A file whose name begins with @, or is -, has ./ in front.

Example:
    $ p21 syntax --header --count product.step
    well formed, instances 3, schema PRODUCT_MODEL
    description:
    implementation level: 2;1
    file name: product.step
    time stamp: 2026-11-30T09:00:00
    author: A. Smith
    organization:
    preprocessor version: exporter 4.1
    originating system: modeller 12
    authorization:
    schema: PRODUCT_MODEL
    PERSON 1
    PRODUCT 2";

/// What stands below the help of `check`.
pub const CHECK: &str =
    "Answer: one line that counts the instances and the bytes of the canonical file; or, on
standard error, the first refusal and where it comes, or that of the schema:
    refused 52 NotDistinct in #1
    schema refused S5 Circular
With --all, on standard error, the first refusal of each statement in the order of FILE, then
those of references, and how many these are:
    refused 45 Count in #3
    refused 20 Unexpected at statement 12
    refused 57 WrongTarget in #9
    refusals 3
A record that is refused is left out: nothing is said of references of it, nor of those to it.
A broken statement of a data section, as by 1 to 11, 20, 21 and 26, is passed over: the
reading goes on at the next #N= or ENDSEC; that stands behind a ;, a ) or the end of a line.
Of what is passed over nothing else is said, and 56 isn't told then. Every other refusal ends
the list, and so does a broken statement behind which neither comes. Then the last line says
how many bytes stand in front of that statement; of what stands behind it, and of references,
nothing is said:
    refusals 3, read 4096 bytes
With --where a second line has its place, where it has one: file, line and column, both from
1 on, the column in bytes; of a value of a record also its attribute, behind the entity that
declares it, and of a part of one its entity. With --all and --most each line has it:
    part.step:11:31: PERSON.ID
    part.step:11:31: 45 Count in #3: PERSON.ID
For references and parts FILE is read a second time; from standard input references have no
place, and parts no entity.
With --names a file is accepted only if its model tells its instances apart, whatever names
they have; copies that may be exchanged needn't be. Else an instance is named that it doesn't
tell from another one, behind all other refusals:
    refused 59 Alike in #8
With --format jsonl each refusal is a JSON object on a line, with its place, and of 20 and 30
with what could stand there.
With several files, or @LIST for the files that a text names, a path a line, each line has
the name of its file in front. The schema is read once, and a file that is refused or can't
be read doesn't end the run; the status is the highest.
Statuses: 0 accepted; 1 refused; 2 a wrong command line; 3 out of memory, cannot open,
read or write.

Slips:
  - schema refused S2 Syntax: schema and file are exchanged; the schema stands first.
  - refused 20 Unexpected at statement 1: FILE is a schema too.
  - refusals 3, read 4096 bytes: the last refusal of the list is to be mended first.
  - refused 31 SchemaName: the file names another schema than S declares.
  - From a pipe: gunzip -c part.step.gz | p21 check S -
  - Many files: find . -name '*.step' | p21 check S @-
  - A file whose name begins with @, or is -, has ./ in front.

Example:
    $ p21 check product.exp product.step
    accepted, instances 128, canonical bytes 4872
    $ p21 check product.exp product.step changed.step
    product.step: accepted, instances 128, canonical bytes 4872
    changed.step: accepted, instances 128, canonical bytes 4873";

/// What stands below the help of `canon`.
pub const CANON: &str = "Two files mean the same exactly if their canonical files are equal.

Answer: the canonical file, of which nothing is written before the whole file is
accepted; or, on standard error, the first refusal and where it comes, or that of the
schema:
    refused 20 Unexpected at statement 7
    schema refused S5 Circular
With --names instances have for names the numbers from 1 on that the model itself gives them.
Two files mean the same but for the names of their instances exactly if these files are
equal. Where the model doesn't tell two instances apart, and they are no copies that may be
exchanged, nothing is guessed:
    refused 59 Alike in #8
Statuses: 0 the file; 1 refused; 2 a wrong command line; 3 out of memory, cannot open,
read or write.

Slips:
  - schema refused S2 Syntax: schema and file are exchanged; the schema stands first.
  - refused 20 Unexpected at statement 1: FILE is a schema too.
  - From a pipe: gunzip -c part.step.gz | p21 canon S -
  - Into a pipe: p21 canon S FILE | sha256sum prints the hash of nothing where FILE is
    refused, with status 0; behind set -o pipefail the status is 1.

Example:
    $ p21 canon product.exp product.step > canonical.step
    $ p21 canon --names product.exp product.step > numbered.step";

/// What stands below the help of `show`.
pub const SHOW: &str =
    "Answer: one line with the statement; or, on standard error, the refusal of the schema or
of the file, as check has it, or that the file has no instance of this number:
    no #129
Statuses: 0 the statement; 1 refused or not found; 2 a wrong command line; 3 out of
memory, cannot open, read or write.

Slips:
  - schema refused S2 Syntax: schema and file are exchanged; the schema stands first.
  - refused 20 Unexpected at statement 1: FILE is a schema too.
  - N has no #: --name 18, and not --name #18, of which a shell drops the #18.
  - From a pipe: gunzip -c part.step.gz | p21 show S - --name 18

Example:
    $ p21 show product.exp product.step --name 18
    #18=CARTESIAN_POINT('',(8.E1,0.,0.));";

/// What stands below the help of `same`.
pub const SAME: &str =
    "Answer: the line same, or the line different; or, on standard error, the first refusal,
with first: or second: in front for the file, or that of the schema:
    second: refused 24 EndsEarly at statement 10
    schema refused S5 Circular
With --names files are the same too that give their instances other names, as another export
of one model mostly does. A file is the same as itself; where the models of both don't tell
some instances apart otherwise, an instance of the first is named:
    first: refused 59 Alike in #8
Statuses: 0 same; 1 different or refused; 2 a wrong command line; 3 out of memory, cannot
open, read or write.

Slips:
  - Status 1 is both different and refused. The word stands on standard output, so that
    a script looks there: case $(p21 same S A B) in same) .. different) .. *) .. esac
  - schema refused S2 Syntax: schema and file are exchanged; the schema stands first.
  - refused 20 Unexpected at statement 1: A or B is a schema too.
  - One of the files from a pipe: gunzip -c a.step.gz | p21 same S - b.step
  - Two exports of one model are different where only the time stamps are: these stand in
    the header, which is compared too.

Example:
    $ p21 same product.exp product.step product-other.step
    same";

/// What stands below the help of `diff`.
pub const DIFF: &str =
    "Answer: a line for each difference, from A to B, in the order of the header, the data
sections and the names of instances, and behind them how many these are, or the line same:
    changed header FILE_NAME.TIME_STAMP '2026-11-30T09:00:00' '2026-12-01T09:00:00'
    went section DATA('A',('S'));
    moved #4 from DATA('A',('S')); to DATA('B',('S'));
    changed #5 CIRCLE.RADIUS 4. 4.2
    changed #8 CARTESIAN_POINT.COORDINATES [2] 0. 1.
    changed #6 from CIRCLE to ELLIPSE
    came #9 DIRECTION
    went #7 DIRECTION
    different: 5 changed, 1 came, 2 went
Instances are told by their names. Values are compared by what they mean, as same does, and
shown as canon writes them; where a list or a set differs in one element alone, that element
is shown behind its index in brackets, and - where it came or went. The sixth of these lines
says that #6 has another set of entities, the third that #4 stands in another data section.
Of a value of more than 100 characters 100 are shown, and .. for the others.
With --names an instance of A is paired with the one of B that says the same, or says most
like it and has the same around it, whatever their names are. A row has both names where
they differ, first that in A, and so has each reference in a value; A and B stand in front
of one to an instance that only this file has:
    changed #17/#5 CIRCLE.POSITION #3/#4 B#9
With --pairs each pair has a line besides, in front of all others, by the names in B:
    pair #17/#5
Where files differ, and so do more than 1000 pairs that were chosen among several, the answer
is the line not decided.
With --data the header is left out, and with --ignore an attribute of each instance of the
entity, which declares it or has it of a supertype. The first line says so, and the last one
how much that was; files that differ are never called the same:
    left out: the header, CIRCLE.RADIUS
    different: 0 changed, 0 came, 0 went; 1 difference in the header not listed
With --tolerance a changed value of an instance is left out that is the same but for reals,
each of which is within X of the other one, or within X times the greater of the two. X is a
number of 0 or more, as 0.001 or 1E-6:
    left out: reals within the tolerance 1E-6
    different: 0 changed, 0 came, 0 went; 2 values within the tolerance 1E-6 not listed
With --format jsonl each difference is a JSON object on a line, with whole values, and the
last one has the counts.
On standard error the first refusal, with first: or second: in front for the file, or that
of the schema:
    second: refused 24 EndsEarly at statement 10
    schema refused S5 Circular
or that of an attribute that the schema doesn't have, or of a tolerance that is no number:
    --ignore CIRCLE.SIZE: CIRCLE has no attribute SIZE of which files have values
    --tolerance 1,5: a tolerance is a number of 0 or more, as 1E-6
Statuses: 0 same, or nothing listed; 1 different, not decided or refused; 2 a wrong command
line; 3 out of memory, cannot open, read or write.

Slips:
  - schema refused S2 Syntax: schema and file are exchanged; the schema stands first.
  - refused 20 Unexpected at statement 1: A or B is a schema too.
  - One of the files from a pipe: gunzip -c a.step.gz | p21 diff S - b.step
  - Each instance came and went: the files number their instances otherwise; try --names.

Example:
    $ p21 diff product.exp product.step changed.step
    changed #24 CARTESIAN_POINT.COORDINATES [3] 1.25E1 1.225E1
    different: 1 changed, 0 came, 0 went";

//! Made from docs/FAULTS.md by making/make-refusals: edit the document, and not this file.

/// What the document says of each refusal, behind a mark.
pub const SECTIONS: &str = r#"### 1 BadByte

    #1=person('ek',$,$,$);

`refused 1 BadByte at statement 8`

No word, number or sign of a STEP file begins or goes on with this byte. It is mostly
one of these: keywords in lower case; a byte order mark in front of `ISO-10303-21;`,
which editors don't show (`examples/refused/BadByte.step`); a real without a digit in
front of its point (`.5`); a print control directive (`\N\`) between tokens; something
that is no STEP file at all. At statement 1 it is mostly a file that is packed by gzip,
or in UTF-16.

Write keywords in upper case and `0.5` for `.5`. Save the file as UTF-8 *without* byte
order mark.
### 2 OpenString

    #1=PERSON('ek,$,$,$);

`refused 2 OpenString at statement 8`

The file ends inside a string. An apostrophe is missing, or one stands alone inside a
string. Where another string follows, the open one ends at its first apostrophe, and
what then stands outside is refused: as 20, or as 1 where it is in lower case.

Close the string; write an apostrophe inside a string twice: `'O''Neill'`.
### 3 OpenComment

    /* the corners
    #1=CARTESIAN_POINT('',(0.,0.,0.));

`refused 3 OpenComment at statement 8`

A remark has no `*/`, so that the rest of the file stands in it. Close it. Remarks
aren't nested: the first `*/` ends the remark.
### 4 BadDirective

    #1=PERSON('C:\parts',$,$,$);

`refused 4 BadDirective at statement 8`

In a string a backslash begins a directive, as `\X2\00FC\X0\` for ü, and this is none.
Mostly it is a Windows path that was written as it stands
(`examples/refused/BadDirective.step`). Directives are `\S\` with a character, `\PA\`,
`\X\` with two digits, `\X2\` with groups of four and `\X4\` with groups of eight, both
up to `\X0\`; the digits of all are 0 to 9 and A to F, in upper case. Other pages than A
(`\PB\`) and the print control directives (`\N\`, `\F\`) aren't read.

Write each backslash that is meant as a character twice: `'C:\\parts'`.
### 5 BadCodePoint

    #1=PERSON('\X2\D83D\X0\',$,$,$);

`refused 5 BadCodePoint at statement 8`

The digits name no character: half of a surrogate pair without the other, or a number
over 10FFFF. Mostly the producer cut a text after so many units, in the middle of a
character.

Write the whole pair, or the character by `\X4\`: `\X4\0001F600\X0\`.
### 6 NotUtf8

`examples/refused/NotUtf8.step`: `refused 6 NotUtf8 at statement 8`

In a string stands a byte from 80 on that is part of no UTF-8 character. The producer
wrote names as its system keeps them, in ISO 8859-1 or a Windows page, and the file
doesn't say which.

Convert the file (`iconv -f ISO-8859-1 -t UTF-8`), or write such characters as
directives: `Kr\X2\00FC\X0\ger`.
### 7 BadNumber

    #1=CARTESIAN_POINT('',(-INF,0.,0.));

`refused 7 BadNumber at statement 8`

A sign without digits behind it, or an exponent without digits: `1.E`, `1.E+`. Mostly
the producer computed something that is no number and printed it.

There is no spelling for infinity or for what isn't a number. Without a sign the same
has another number: `NAN` is 20, and `1.#INF` is 26 LeftOut(ConstantName). Mend the
value.
### 8 NumberRange

    #1=CARTESIAN_POINT('',(1.E10000,0.,0.));

`refused 8 NumberRange at statement 8`

The number, written with one digit in front of its point, has an exponent outside -9999
to 9999; or the exponent has more than nine digits. `0.1E10000` is read, since it is
`1.E9999`. With `in #1`: an INTEGER of more than 10,000 digits where the schema has a
NUMBER.
### 9 BadBinary

    #1=PERSON("33B",$,$,$);

`refused 9 BadBinary at statement 8`

A BINARY is a digit 0 to 3 and then hexadecimal digits in upper case. The first digit
says how many bits at the left don't count, and these have to be zero. Here three bits
don't count, and `3` is 0011.
### 10 NameRange

    #18446744073709551616=CARTESIAN_POINT('',(0.));

`refused 10 NameRange at statement 8`

Names of instances go up to 18446744073709551615. Renumber the file.
### 11 BadName

    #1=VERTEX_POINT('',# 2);

`refused 11 BadName at statement 8`

No digit stands behind `#`. Leave out what stands between.
### 12 NotOneParameter

`p21 param` alone, on the text `1 2`: `refused 12 NotOneParameter`

The text has to be one number, string, enumeration item, binary or name of an instance,
or `$` or `*`. This is another token, or there are two.
### 13 BadWord

This comes from the library alone (`Word::read`): these bytes are no keyword. In a file
they are refused as 1.
### 20 Unexpected

    #1=PERSON('ek',$,$,$)
    #2=PERSON('jo',$,$,$);

`refused 20 Unexpected at statement 8`

No statement goes on with this token. Here the `;` is missing, which shows at `#2`.
Other causes are a comma or a parenthesis too many or too few; an apostrophe inside a
string, which ends it; a keyword as a value that should be an item, `T` for `.T.`; a
name of an instance in the header; sections in another order. At statement 1 the schema
was given as the file, or the file is a zip archive, or UTF-16 without a mark.

Wanted here: `";"`. With `--format jsonl` the program says which tokens could stand
there, as its parser would take them (`expected`): signs and the words of sections as
they are spelled, and else by the words of the standard, `keyword`, `user-defined
keyword`, `instance name`, `integer`, `real`, `string`, `enumeration` and `binary`.
`p21-where` says it in words: "a value", or of the values "a number", "a text", "an
item", "a binary", "the name of an instance", `"$"`, `"*"` and "a keyword" those that
could; of the signs `"("`, `")"`, `","`, `"="` and `";"`; or the word that begins a
statement, as ENDSEC.

Look at the named statement up to its end, and at the one before it.
### 21 TooDeep

    #1=PERSON((((((((((((((((((((((((((((((((((((((((((((((((((((((((((((((((((

`refused 21 TooDeep at statement 8`

Lists and typed parameters may stand in one another 64 deep; this is the 65th. No
product model comes near that. The file is broken, or somebody made it to break
programs.
### 22 RecordTooLong

A statement has more than 536,870,912 bytes, separators and remarks between its tokens
not counted. A caller of the library can set another limit. Mostly an apostrophe or a
`;` is missing somewhere in a very large file.
### 23 FileTooLong

The file has more than 68,719,476,736 bytes; the text of `p21 param` more than
16,777,216. A caller of the library can set another limit for files.
### 24 EndsEarly

`examples/refused/EndsEarly.step`: `refused 24 EndsEarly at statement 10`

The file ends before `END-ISO-10303-21;`. It was cut off on its way, or its producer
stopped. An empty file is refused so too, at statement 1.

Get it again. Don't write the missing end by hand: whatever else got lost would stay
lost.
### 25 AfterEnd

Behind `END-ISO-10303-21;`:

    ISO-10303-21;

`refused 25 AfterEnd at statement 10`

Wanted here: nothing but blanks and remarks behind END-ISO-10303-21;. The file is
complete and something follows. Two files were joined to one, or a longer one was
written over in part. Separators, line ends and remarks may follow; so may the byte 1A
of old systems.
### 26 LeftOut

    #1=!MY_POINT(0.,0.);

`refused 26 LeftOut(UserKeyword) at statement 8`

This is STEP that `p21` leaves out. The name in parentheses says what it is:

| Name | What it is | Instead |
|---|---|---|
| `UserKeyword` | an entity of the user's own, `!MY_POINT` | declare it in the schema and write it without `!`; in further header records these are read |
| `Scope` | `&SCOPE` .. `ENDSCOPE` | write the instances one behind the other |
| `ConstantName` | `#NAME`, an instance that the schema has as a constant | write the instance into the file |
| `ValueName` | `@1` or `@NAME`, a name of a value | write the value |
| `Anchor`, `Reference`, `Signature` | sections of the third edition | leave the section out; but a signature is then gone |
| `SecondSection` | two data sections of which one has no name | name each: `DATA('a',('PRODUCT_MODEL'));` |
| `NoDataSection` | a file of a header alone | write an empty one: `DATA;` `ENDSEC;` |
### 27 CanonicalTooLong

One canonical statement has more than 268,435,456 bytes, or all canonical lines together
more than 4,294,967,296. The canonical file can be longer than the file: each character
outside ASCII takes twelve bytes or more. A caller of the library can set another limit.
### 30 HeaderShape

In place of the line of FILE_NAME:

    FILE_NAME('','',(''),(''),'','');

`refused 30 HeaderShape at statement 4`

The header begins with three records, in this order and of this form:

    FILE_DESCRIPTION  description           a list of texts, or $
                      implementation_level  a text or $
    FILE_NAME         name                  a text or $
                      time_stamp            a text or $
                      author                a list of texts, or $
                      organization          a list of texts, or $
                      preprocessor_version  a text or $
                      originating_system    a text or $
                      authorization         a text or $
    FILE_SCHEMA       schema_identifiers    a list of one text

Here FILE_NAME has 7 parameters, and here are 6; without one: authorization. `p21-where`
names the parameter, as "parameter 3 of FILE_NAME, author", and what is wanted here, as
"a list of texts, or $". In the first two records a text in a list may be `$` too, and
lists may be empty; FILE_SCHEMA has its text. Other records come behind these three,
with other keywords. A file of several schemas is refused here, as its FILE_SCHEMA has
several texts.
### 31 SchemaName

In place of the line of FILE_SCHEMA:

    FILE_SCHEMA(('AUTOMOTIVE_DESIGN { 1 0 10303 214 1 1 1 1 }'));

`refused 31 SchemaName at statement 5`

The file says that it is of another schema than the one that it is checked against;
`p21-where` says here that the file is of AUTOMOTIVE_DESIGN, the schema text of
PRODUCT_MODEL. The letters, digits and `_` in front are compared, upper and lower case
alike; what follows, such as an object identifier, isn't looked at.

Check it against the schema that it names. `p21-where` prints both names. Where you know
that both are one schema by two names, change the name in the schema text, by the
command that `p21-where` prints; but then be sure.
### 32 SectionShape

In place of `DATA;`:

    DATA('a');

`refused 32 SectionShape at statement 7`

Wanted here: `DATA;` or `DATA('name',('SCHEMA'));`. A data section has either no
parentheses at all or its name and a list of one schema, here
`DATA('a',('PRODUCT_MODEL'));`.
### 33 SectionTwice

In place of `DATA;`:

    DATA('a',('PRODUCT_MODEL'));
    ENDSEC;
    DATA('a',('PRODUCT_MODEL'));

`refused 33 SectionTwice at statement 9`

Two data sections have one name. `'\X\61'` is the name `'a'` too. Name one of them anew,
or join them.
### 40 DuplicateName

    #1=CARTESIAN_POINT('',(0.,0.,0.));
    #01=CARTESIAN_POINT('',(1.,0.,0.));

`refused 40 DuplicateName in #1`

Two instances have one name; `#01` is `#1`, and named sections share their names. Mostly
two files were joined without renumbering one of them. Nobody can say which of the two
instances a reference means, so this is refused even where both are alike.
### 41 UnknownEntity

    #1=SPHERICAL_SURFACE('',#2,10.);

`refused 41 UnknownEntity in #1`

The schema has no entity of this keyword. It is misspelled, or a short name, or the name
of a TYPE, or it belongs to another schema or edition than the one given. Of several
parts in parentheses one unknown part is enough.
### 42 Abstract

    #1=CURVE('');

`refused 42 Abstract in #1`

The schema declares this entity ABSTRACT: an instance has to be one of its subtypes as
well. Write the subtype that is meant, here LINE or CIRCLE.
### 43 PartMissing

    #1=(LENGTH_UNIT()SI_UNIT(.MILLI.,.METRE.));

`refused 43 PartMissing in #1`

An instance in parentheses lists each of its entities with all of their supertypes. Here
`NAMED_UNIT(*)` is missing. A supertype without attributes has its part too, with empty
parentheses.
### 44 PartTwice

    #1=(LENGTH_UNIT()NAMED_UNIT(*)NAMED_UNIT(*)SI_UNIT(.MILLI.,.METRE.));

`refused 44 PartTwice in #1`

An entity has two parts. It has one part alone, also where it is inherited in two ways.
### 45 Count

    #1=CALENDAR_DATE(2024,3);

`refused 45 Count in #1`

CALENDAR_DATE has 3 attributes, and here are 2 values; without one: DAY_COMPONENT. The
entity has another number of attributes than the record has values. `p21-where` says
which values are missing: where the types leave one way alone in which the others fit,
those of that way, and else the last ones. Without parentheses around the parts, the
values of all supertypes come first, in the order in which the schema lists them, and an
attribute that is derived has a place too, with `*` in it. `p21 schema` prints the
attributes of each entity in this order.

Mostly the file was written for another edition of the schema.
### 46 Missing

    #1=CALENDAR_DATE(2024,3,$);

`refused 46 Missing in #1`

`$` says that there is no value, and this attribute isn't OPTIONAL. In a list, too, each
element needs a value, but for an ARRAY OF OPTIONAL. Give a value: `''` is one where a
label has to be there and nobody knows what to write.
### 47 StarNotDerived

    #1=CALENDAR_DATE(2024,3,*);

`refused 47 StarNotDerived in #1`

`*` says that the schema derives the value, and it doesn't for this instance. Write the
value; where there is none, `$`.
### 48 DerivedNotStar

    #1=SI_UNIT($,.MILLI.,.METRE.);

`refused 48 DerivedNotStar in #1`

The schema derives the value of this attribute, so the file has `*` there and nothing
else, neither `$` nor the right value.
### 49 WrongKind

    #1=CARTESIAN_POINT('',(80,50,12.5));

`refused 49 WrongKind in #1`

The value is of another kind than the type of its attribute: mostly an INTEGER (`80`)
for a REAL (`80.`), a string for a number, one value for a list of one.

Write a real with its point. A NUMBER takes both.
### 50 Width

    #1=PERSON('a key of more than thirty-two characters',$,$,$);

`refused 50 Width in #1`

The schema gives a STRING or a BINARY a width, and this value has more; with FIXED,
another number. Characters are counted and not bytes: `\X2\00FC\X0\` is one.
### 51 Bounds

    #1=CARTESIAN_POINT('',());

`refused 51 Bounds in #1`

The list has fewer or more elements than the schema allows: here one to three. An ARRAY
has exactly the number of its indices, empty places counted.
### 52 NotDistinct

    #1=PRODUCT('B-100','Block',$,(#2,#02));

`refused 52 NotDistinct in #1`

Two elements of a SET, of a LIST OF UNIQUE or of an ARRAY OF UNIQUE are the same. What
they mean is compared: `#2` and `#02` are the same, and so are `1.` and `10.E-1`, or two
sets in another order. Leave one out.
### 53 UnknownItem

    #1=SI_UNIT(*,.MEGA.,.METRE.);

`refused 53 UnknownItem in #1`

The enumeration has no such item. BOOLEAN has `.T.` and `.F.`, and LOGICAL has `.U.`
too; `.TRUE.` belongs to neither. Mostly the schema is of another edition.
### 54 SelectType

    #1=MEASURE_WITH_UNIT(80.,#2);

`refused 54 SelectType in #1`

The attribute is a SELECT. A value in it names its type, here `LENGTH_MEASURE(80.)`, and
the type has to be one that the SELECT offers. The name of an instance stands there as
it is, where the SELECT offers an entity.
### 55 TwoRedeclarations

No attribute of the example's schema can meet it. In this one, COUNTED and MEASURED both
narrow the amount, and neither is a subtype of the other:

    SCHEMA two;
    ENTITY quantity; amount : NUMBER; END_ENTITY;
    ENTITY counted SUBTYPE OF (quantity); SELF\quantity.amount : INTEGER; END_ENTITY;
    ENTITY measured SUBTYPE OF (quantity); SELF\quantity.amount : REAL; END_ENTITY;
    END_SCHEMA;

In a file of it (`FILE_SCHEMA(('TWO'));`):

    #1=(COUNTED()MEASURED()QUANTITY(1));

`refused 55 TwoRedeclarations in #1`

The instance is of two entities that declare the same attribute anew, and neither is a
subtype of the other, so that nothing says which type its value has. Leave out one of
the two, or give the schema an entity below both that decides.
### 56 Dangling

    #1=VERTEX_POINT('',#2);

`refused 56 Dangling in #1`

`#1` refers to an instance that isn't in the file. The instance that holds the reference
is named. References may go forward, so this and 57 come when the whole file has been
read.
### 57 WrongTarget

    #1=VERTEX_POINT('',#2);
    #2=DIRECTION('',(1.,0.,0.));

`refused 57 WrongTarget in #1`

`#1` refers to an instance of another entity than the schema wants there: a point is
wanted, and this is a direction. An instance of a subtype of what is wanted is right.
The instance that holds the reference is named.
### 58 OneOf

    #1=(LENGTH_UNIT()NAMED_UNIT(#2)PLANE_ANGLE_UNIT());

`refused 58 OneOf in #1`

The schema says ONEOF of two entities that this instance both is. Leave one part out.
### 59 Alike

    #1=CARTESIAN_POINT('',(0.));
    #2=CARTESIAN_POINT('',(0.));
    #3=SHAPE_REPRESENTATION('',(#1,#2),#5);
    #4=SHAPE_REPRESENTATION('',(#1,#2),#5);
    #5=REPRESENTATION_CONTEXT('','');

With `--names`: `refused 59 Alike in #1`

Only where `--names` asks for it, and behind all other refusals: the model doesn't tell
the instance from another one, here `#1` from `#2`; `p21 check --names --format jsonl`
has the other one as `alike`. Neither their values nor what refers to them tells them
apart, and so on from instance to instance; and they are no copies that may be
exchanged, as those are of which whatever refers to one has a copy itself, or refers to
all of them in one SET. Any numbers would be a guess then, so there are none. It says
nothing against the file, which `p21 check`, `canon` and `same` take without `--names`.

`p21 same --names` refuses two files so where neither is told apart, unless they are the
same name by name; where one is and the other isn't, they are `different`. To get
numbers, give one of the two instances a value that the other one hasn't, or leave one
of them out.
### 90 NoMemory

`out of memory`: memory ran out. The program keeps the canonical file as it grows, and a
little for each instance and each reference.
### 91 ReadFault

`read fault`: the system answered an error where the file was read. It isn't tried
again. Mostly the name is that of a folder.
### 92 WriteFault

`write fault`: the system took no more of the answer: a full disk, a closed pipe. What
was written is a beginning of the answer.

`cannot open FILE` has no number: there is no such file, or it may not be read. The
first file that can't be opened is named. A control character of its path is shown by
its number, as `\n` or `\x1b`, so that the line stays one.
### S1 Token

    SCHEMA s; (* not closed END_SCHEMA;

`schema refused S1 Token`

A string or a remark doesn't end, or outside of both stands a byte that no word of
EXPRESS has, as `ü` or a byte order mark. Remarks nest: each `(*` wants a `*)` of its
own.
### S2 Syntax

    SCHEMA s; END_SCHEMA

`schema refused S2 Syntax`

No declaration goes on so. Here the last `;` is missing. Other causes are a STEP file in
place of the schema, with the arguments exchanged; SUBTYPE OF in front of SUPERTYPE OF;
a word such as `type` or `list` as a name; several schemas in one file.
### S3 Duplicate

    SCHEMA s;
    ENTITY a; END_ENTITY;
    ENTITY A; END_ENTITY;
    END_SCHEMA;

`schema refused S3 Duplicate`

Two entities or types have one name (upper and lower case are alike), or one name stands
twice among the attributes of an entity, its supertypes, the items of an enumeration,
the types of a SELECT or the entities of a ONEOF; or an entity declares one inherited
attribute anew twice.
### S4 UnknownName

    SCHEMA s;
    ENTITY a; x : length; END_ENTITY;
    END_SCHEMA;

`schema refused S4 UnknownName`

A name is declared nowhere in this text; or what stands behind SUBTYPE OF or in a ONEOF
is no entity; or a TYPE is just the name of an entity. Mostly the listing is one of
several that belong together: take the long form, which has all of them.
### S5 Circular

    SCHEMA s;
    ENTITY a SUBTYPE OF (b); END_ENTITY;
    ENTITY b SUBTYPE OF (a); END_ENTITY;
    END_SCHEMA;

`schema refused S5 Circular`

An entity is its own supertype, a TYPE its own name, or a SELECT stands in itself, over
however many steps.
### S6 LeftOut

    SCHEMA s;
    USE FROM t;
    END_SCHEMA;

`schema refused S6 LeftOut`

Where it is a published listing, `p21-adapt` makes a copy that fits: `p21-adapt LISTING
-o COPY`. This is EXPRESS that `p21` leaves out: USE, REFERENCE, EXTENSIBLE, BASED_ON,
GENERIC, GENERIC_ENTITY, AGGREGATE, RENAMED, a SELECT without a list, bounds and widths
that are computed, a TYPE that is just the name of a SELECT.
### S7 Bounds

    SCHEMA s;
    ENTITY a; x : LIST [3:1] OF REAL; END_ENTITY;
    END_SCHEMA;

`schema refused S7 Bounds`

A lower bound above its upper one, `?` as a lower bound or in an ARRAY, a width of 0, or
a bound or width over 4294967295.
### S8 RedeclaredPlace

    SCHEMA s;
    ENTITY a; y : REAL; END_ENTITY;
    ENTITY b SUBTYPE OF (a);
    DERIVE SELF\a.z : REAL := 0.0;
    END_ENTITY;
    END_SCHEMA;

`schema refused S8 RedeclaredPlace`

`SELF\a.z` stands for an attribute of a supertype, and `a` has no `z`, or several that
it inherits, or isn't a supertype of this entity.
### S9 TooLarge

The text has over 16,777,216 bytes, the schema over 65,535 entities and types together,
or a type more than 32 aggregates in one another. `p21-adapt` says of a listing what
else doesn't fit: `p21-adapt LISTING -o COPY`.
"#;

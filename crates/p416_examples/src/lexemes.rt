// The tokens of texts whose division is known from the rules of the language.

/// Behind a `$` stand the token class of each token, its octets and its place.
const ROWS: &[u8] = b"=a width does not cut a number|Tt
0x1_0$ 16 0x1_0 1:1
4w3$ 4w3 4w3 1:1
8w257$ 8w257 8w257 1:1
08w0b1_1$ 8w3 08w0b1_1 1:1
1w340282366920938463463374607431768211455$ 1w340282366920938463463374607431768211455 1w340282366920938463463374607431768211455 1:1
=a width is decimal digits and a letter that joins them to a digit|Tt
1_6w5 16w 16 w5$ 16 1_6 1:1 name w5 1:4 16 16 1:7 name w 1:9 16 16 1:11 name w5 1:14
16s 16 s5$ 16 16 1:1 name s 1:3 16 16 1:5 name s5 1:8
0x1s5 9wx$ 1 0x1 1:1 name s5 1:4 9 9 1:7 name wx 1:8
=the longest mark is read first|Tt
<<=<$ << << 1:1 = = 1:3 < < 1:4
&&&&&$ &&& &&& 1:1 && && 1:4
|+||-|||+|$ |+| |+| 1:1 |-| |-| 1:4 || || 1:7 + + 1:9 | | 1:10
...++!?$ .. .. 1:1 . . 1:3 ++ ++ 1:4 ! ! 1:6 ? ? 1:7
=two greater marks that touch are told by their places|Tt
>>=$ > > 1:1 >= >= 1:2
bit<8>>$ name bit 1:1 < < 1:4 8 8 1:5 > > 1:6 > > 1:7
a >>$ name a 1:1 > > 1:3 > > 1:4
a > >$ name a 1:1 > > 1:3 > > 1:5
=a string is one token and so is the name of an annotation|Tt
@name(\"out3\")@field_list(1)\"table\"$ @name @name 1:1 ( ( 1:6 quoted \"out3\" 1:7 ) ) 1:13 @field_list @field_list 1:14 ( ( 1:25 1 1 1:26 ) ) 1:27 quoted \"table\" 1:28
@name\"_\"@field_list$ @name @name 1:1 quoted \"_\" 1:6 @field_list @field_list 1:9
=an include line is one token without the blanks around it|Tt
#include <core.p4>% \t#include <v1model.p4> \r%bit$ #include <core.p4> #include <core.p4> 1:1 #include <v1model.p4> #include <v1model.p4> 2:3 name bit 3:1
%  #include <core.p4>\t $ #include <core.p4> #include <core.p4> 2:3
=comments change no place|Tt
a // b%c$ name a 1:1 name c 2:1
/* a% */ b$ name b 2:5
a // to the end$ name a 1:1";

/// The rows of this file.
pub fn rows() -> &'static [u8] {
    ROWS
}

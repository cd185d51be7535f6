//! The results of the original crate, data-encoding 2.11.1, for 200 specifications.

/// The fields of a specification, and its result: the text of the refusal, or the length of the
/// layout and the sum of its bytes, each times its position from 1, modulo 1000003.
///
/// A program over the original crate drew the specifications with a generator of pseudo-random
/// numbers and printed these rows.
pub(super) const ROWS: &str = "\
mblN+uéX|most|check|=|↵~|0||||invalid number of symbols
OaVtRkFBj1pI3lLUKzmuWxMZX9o/Qd8H|most|check|O||24||||'O' has conflicting definitions
RR|least||||0||||'R' has conflicting definitions
6JTsCNQScbLi/WX+fxkHZMRV0dUY3uhP2rowmA791vjaGyl8q5IngE4FpeOzBKDt|\
    most|check|.||0||1|fA|translate from/to length mismatch
pacovETs|most|check||-↵|0||*>|pv|515 bytes, 553404
spEVT1é6|most|||0|16|↵|;,|p6A|invalid number of symbols
XwkE|least|check|=|→|0||||unnecessary padding
2rEpvAwFm6hj+zPfDuI7OdqSTs8ieGl2|most|||_--|0||||'2' has conflicting definitions
fFqp|most|check||-←|0||||515 bytes, 765889
xLsXDvHW3TtgcbeYwjGuMfodza5BRZJl|least|check|||0||||514 bytes, 474823
yLG68x4g|most|check|||10|←↵|||wrap width not a multiple of 8
vc9xmbdXBYFewQr/NaIZP5GityhujR0H|least|check|||0||||514 bytes, 387818
Y5qp+TcO|least|check|=||0||||514 bytes, 64640
8BDITfym|most|check|||4|=|||wrap width not a multiple of 8
ZouxE9Pe5TDGd+hNQHpt1fUnCcl7rILMki0FXAbBvO3qWwa/gyRYj6JKzVsSm428|\
    least|check|||0||||514 bytes, 370002
oF|most|check|o||0||?|^|unnecessary padding
/5faCGlK|least|check|/|→ |0||!|a|'/' has conflicting definitions
dxANEKOe7W34XbHQwp+RyFahog0vMSGtYu/cVqrUlBDICJj68ZTzsfi5mL21kP9n|\
    most|check|||0||||514 bytes, 380044
ZBSq+yV30fsGld/wR7LEhzjxCcnaiAJWQ5eNXOUpuHTktYPM8o2Km69v1I4DFgrb|least|||_-|0||||515 bytes, 360587
wkdOFosl/CYj3R0InhraA2GiLKB5vD8extqV6ubMJPQcW+1zfyTX94HgZN7pmSUw|\
    most||.|_~|0||||'w' has conflicting definitions
fsGC+ENq|most||=||76|é↵|b|q|wrap width not a multiple of 8
srXkS50D|most|check|=||0|↵|||514 bytes, 71634
+7|least|check|||0||||514 bytes, 208304
9T|most|check|.||0||||unnecessary padding
Lmke|most|check|||0||,| |' ' is undefined
9z|most|check|||0||1$|99|514 bytes, 461120
WUF6x/tyOb1KLVJAaXjhH57PmuqYZT8n23BSNslczeMQof4gDkrG0IpCi+ER9wdv|\
    least|check|é||0|↵|||non-ascii character
Lre7|most|check|.|_|0||||unnecessary padding
qCES2P5UVb9ldDWX3k+ZvAFrQRKtJo7ONfL8piY0gwunamIeh4BTy/Gc6jsMzxH1|most|||~-|0||||515 bytes, 392305
VuFEBDHw|least||||8|=|||516 bytes, 106012
k1dUQ4JIZNGyn29gKpuw7aP5D0Lzxoh8vl3b/ROeqWCr+6XETSfsjYcFBimVHAtM|most||||0||||514 bytes, 381025
bNKe|least|check|=|↵~|0||a|NA|unnecessary padding
faxh9kFAYivGg6BNoZjVCH24pnt5ebXl3D+Q7W/O0SuKsmTJzcrwPU8Ey1IMqLRd|most||=||76|↵|||516 bytes, 377687
WVQ4|most|check|W|-↵|255|←↵|||unnecessary padding
PR|least|check|||0||||514 bytes, 252168
zObWv60Kgx9ZLmnwC57ro1RMiJhjlds|most||.||16|é↵|||invalid number of symbols
ogFky4s9Yf7EiAKo|least||=||0||||'o' has conflicting definitions
PB|most||||10|↵|||wrap width not a multiple of 8
dn|most|check|| _~|0||||515 bytes, 41201
eldx|most|check|.||4|A|b|x|unnecessary padding
0CYRgH/p4vEa7QMTcbAf2XnDFm5hiWewUyqsPl+k68S1OG3JjrtoLIx9NBVZzuKd|least||.|←|0||||515 bytes, 347558
9z1BkpyjQ7fYNuxWaRq/6s8o2Sgnct+J|least|||0|248|A||A|translate from/to length mismatch
YSNUZlXaExvutHiAGs48d0Jzk/3h7RC+|most|check|=|~_→|16|←↵|<,|E=|517 bytes, 147947
1HSybARQ/9f4iTjU+CrLnaZDc0vuFPdKs2BJhegGw76tIkMx3WoNqVYOlp8XEmz5|\
    most|check|.||0||0#|rn|'0' has conflicting definitions
RJ0tYagkyz4xoAWqjH+IdnuT9/m7QvOG|least|check|R||248|é↵|@*| x|'R' has conflicting definitions
zR4reQBN|least|check|| _|4| - |%|4|wrap width not a multiple of 8
rGF9hVlsj0X/32Iw|most|check|||76|←↵|||517 bytes, 758684
oH15|least|check|||0||||514 bytes, 845513
fé|most|check|f||0||||invalid number of symbols
mNoB/i4P5uV2U+8pDwjqceCYXE9ALhT70GQdMKfabyZSt1gsJnvxFlrz3WRIOHk6|\
    most|check|=||10|←↵|||wrap width not a multiple of 4
NLq+xOr9l3I8k2J1wZCmE70uj4WvG/cR|least||=||0||||514 bytes, 72936
+fPeZTdXSFNLz6xwYGkqCygsEHuVApQn|most|check|=|←|0||||515 bytes, 394701
0CV/IEDTtlohcFpb7wqksdSRWe6BYgJ3|most|check|=||0||!|o|514 bytes, 218829
cbnLtHYqOFPgo/u90BeXQSWvKT8fwxE6|most|||←↵|0||||515 bytes, 291692
VPpS7cjn+o60QNlqFéJ/egWu3XdawrA5|most||||0||B|!|invalid number of symbols
FEcDu2lxTNzMpP5WYVHC86oR1hQyiabO|most|check|=|_|0||||515 bytes, 237254
ivEA4f5uHGBpFacz+8DdLynm73hI1Ml2|most|check||↵_|256|←↵|@|!|invalid wrap width or separator length
B29y4fnU|most||||0||||514 bytes, 986796
OofS|least||O|-|10|↵|;;|o=|unnecessary padding
kR7VrJWL|least|check|=|- →|0||>$!|JR |515 bytes, 23395
ChWZK/i3zgUDwynV|least||=|← |10|←↵|||unnecessary padding
ZS|most||=|0|0||||unnecessary padding
SreUdYlf|most|check|||256|↵|||invalid wrap width or separator length
ablXeKBdqIm6TtJGSFNDr9owipnWsHxA|least|check|||300|←↵|||invalid wrap width or separator length
ZE|most|check|||0||a|E|514 bytes, 160877
6HNp|most|check|||0||b)|!p|'!' is undefined
BCoWdKbaY4X/Je8MRUvA9xZ6winPLDIgt0HQc2V1Slz+7sO3pGFqhkE5NmjuryfT|most|||↵|0||||515 bytes, 394757
RV|most|check|||0||||514 bytes, 354332
zYu5xRH6|most|check|||0||**|66A|translate from/to length mismatch
J3Ungupé|most||||256|é↵|||invalid number of symbols
Séw7eCRz|most|check|=|→|0||||invalid number of symbols
xPMNtIo9|most|check|=|→|0||@(!|!!9|'!' is undefined
BfOo+mM8Fd5Nkvgu|least|check|=||0||||unnecessary padding
47Vh3jnbTtuéZWYNl8/UgBFJdw52XKDf|most|check|=||256|←↵|||invalid number of symbols
gv7V3QDAJlZW/1jshu9HPbnpcwdUG0+6|most|check|.||10||||514 bytes, 156356
G8C3oLTk|most|check|=||0||||514 bytes, 881205
d+q7|most|check|=||76| - |#>|^+|unnecessary padding
WfS6VqYe9Rx3cMbBiPZNaQFthArw8/TDXk2puC4UIOyKEsHJ1zmd+n7v05ljGgoL|\
    most|check|=|~~|10|←↵||A|wrap width not a multiple of 4
4MVNOkKt|least|check|.||0||||514 bytes, 57157
LuRCqSNyEIPrsaWTl+hOviFQe/A5wBZpHKXcYGk3g0Mjxf2z8V1Jdb7m6t9DUno4|\
    most|check|||76|A|||'A' has conflicting definitions
ojC75Xeu|least|check|||0||)|!|'!' is undefined
4587|most|check|=|←←|0||||unnecessary padding
sVxdQl5empTq2S19KIfFtHvEDNCLBPURc8Aw+/ZyG3rWahOg0un4M7X6ioJbkjzY|most||.||0||||514 bytes, 331565
kYBxTQ+neP2bhG/mAtJMLvDHdUqVpo7R43c1zwfg0r5OCFsj68aSEi9lWNKyuXIZ|\
    most|check|.|-~~|0||||515 bytes, 340819
nb6ftkFXHJS7BGK/NR4V05AM2IqWhPOe|least|check||-|0||%|tA|translate from/to length mismatch
uyil|least|check|||0||0*| l|' ' is undefined
029J/yGQWOXjnk+Nw8BzcMhSbxiE76tP|least|check|=|→ ←|0||a<|2tA|translate from/to length mismatch
BxpU|most|check||↵|0|=|||515 bytes, 651439
eGwskéoCXONLfzv0|least|check|=||0||?>|Nz|invalid number of symbols
J0|most|check|=||0||||unnecessary padding
t3qLA0Sf|most|check|||0||||514 bytes, 28270
Odwc|most|check|=| |0||?>|c=|unnecessary padding
EN+mSZ3vA76acPzoRsMhpq21LYdbQw0T|most||=||0||||514 bytes, 212556
nrecRi/P|most||é|↵- |0||||non-ascii character
IK0zj97mXxSl6fMyRQuT/WCk8Jdc2AoL|least|check|=||0||@B@|7=k|'@' has conflicting definitions
DIoV7s9D|most|check|||8| - |!>|VD|'D' has conflicting definitions
u/8Q+N54TlBz6dxb|most|||~←|0||,B*|ld=|'B' has conflicting definitions
/bogcnCV3tKpaFrN6Dx+XHyGPJMBm2WqwIk9sheYQ4i5d80lUEAjzuO1SLfZTv7R|\
    most|check|| ↵|256|é↵|<|^|invalid wrap width or separator length
VfZ857zrLOG+xDUs|most||||0||||514 bytes, 771030
AjFK|most|check||→~|4|←↵|#| |' ' is undefined
Ry4u|most||.||0||b|y|unnecessary padding
fF69w8W1Q0oIKgz5JVCyL3cGa/PEbZmDXUHxljT4S2Rptu7rBNAdYensvqiMO+kh|\
    most|check|f|~↵↵|0||||'f' has conflicting definitions
tHS5VKB7m+lye8dRL2kX1j69snrqEwWQ|least|check|é||256| - |||non-ascii character
11|most|check|1||10|←↵|||'1' has conflicting definitions
Ye|least|||↵-|0||||515 bytes, 710356
N6|least||||24|←↵|?|=|'=' is undefined
RWdxOXTHBafbn1DSl367Z0vNF2cVG9rKij8pMYLCEuho+gtPQmJzUs/4yeqw5AIk|\
    least|check|||16| - |*(|pS|518 bytes, 393028
Jra9MoQSGksnOVm0|most|check|=||0||aB|Vo|unnecessary padding
HGepBExkvJbdoPqM|most|check|=||0||*|H|unnecessary padding
547Zi1HkYyTIwBPoA3Ob80zaFUgueSv+|most|check||-|0||||515 bytes, 205631
XYljS10C|most|check|||0||||514 bytes, 957741
qp6L|most|check|=||0||?|L|unnecessary padding
mOEiHB4D1Wndw2+NaeyF70uhQUICtqMT|least|check||_|16|←↵|||517 bytes, 219620
Z5|most||||0||?|Z|514 bytes, 902718
TXpT|most|check|=||0||||'T' has conflicting definitions
03t0|most|check|=||255| - |||'0' has conflicting definitions
iWz8GKOgQyU9Y7qv2RAkpns5LIjrbaSl|most|check|=||0|↵|||514 bytes, 352389
BaQxDM48KP2hgkuO|least|check|=||0||||unnecessary padding
mjCp|most|check|=|~|0||||unnecessary padding
yeNQ71/lWFgYaGi0P4IoMxCXvwSbTk6tpKVqdcnrZAmOJ9+EfL25szh3HRuBjUD8|\
    most|check|||0||||514 bytes, 374709
+0LbmBz+|most|check|||0||;%|z!|'+' has conflicting definitions
yhcba0sgHMEZw89C3o1F+Xped5QR4zf2|most||.|A|0||||515 bytes, 125064
/RecMv3FqfCXpuHWs4Ewao615DOGkTAg|most|check|=||0||,|6A|translate from/to length mismatch
a0+dTYU1|most|check||←~↵|0||||515 bytes, 795828
DAXwWVNasnuxiIPGz1K0QLl3efkSjchg5qRZJFBUr46tCy78MYHm+O/b9dEv2poD|\
    most|check|||0||||'D' has conflicting definitions
461gLsvHZJpaPtKN|least|check|||0||||514 bytes, 824211
NJPylAn+|least|check||→|4|↵|||wrap width not a multiple of 8
mD|least||| _A|248|↵|||516 bytes, 628312
Z3nOf6dPs9XC7q0/52xAkGUWurNTHKSewDQiFyhlm8JIL4+vzcVbpYBEaoR1gtjM|\
    most||Z||0||||'Z' has conflicting definitions
nKHi9Y8myJS+FwVZuvBfeqGCt6QrN/LgTUI7x3aodh2DjcWA5MkEPbO40Rpl1szX|\
    least|check|=||0||$|a|514 bytes, 310747
5Jwnp9CvHVrNgxDQGO+m4LacZM60hUAo|most|check|=||0||||514 bytes, 177423
ibBcJvQA|least|check||↵↵↵|0||>|b|515 bytes, 189777
beWtShj|most||.||0||||invalid number of symbols
eUpQmSZWcwFdYo3sJDREzIXlyfkiAB7j|most||=| |0||)|3|515 bytes, 339304
lxLMTvSJHu5mk9PqrfWetn4yzIF167Bwp0gRN23XQOECdjVbY+8GiscoUaKZADh/|\
    most|check|=|0|0||||'0' has conflicting definitions
p8|most|check|=||0||||unnecessary padding
yofV8+T\
2|most|check||~←|0||!|o|515 bytes, 976641
wé4fvSXo|least||=||0||||invalid number of symbols
Lq1id347|most|check|L||300|é↵|(| |'L' has conflicting definitions
JBUCFMbEA5f36KTh|least|check|||76| - |||518 bytes, 589408
61KlxbULCYAzkG/E|most||.||0||||unnecessary padding
c12i+JMeBNC3g5R9jAuWPQYqnaGx4l7K/ZITFkUybH0stpvm8zrwLdDOfXoEShV6|\
    most|check|| ~←|24|=|||516 bytes, 459960
qF|least|check|q||0||||unnecessary padding
F1|least|check|F|→ |0||B| |unnecessary padding
Sjrq9IsDHio7LtcvYdl4Zf2pzy0Tg1WARECUM3VxeXFbP/+G6aQ5uhNBKJ8mnwkO|\
    least|check|||76|é↵|b|D|non-ascii character
TUPv4ujgVWY/5Z26zbpmcotOH7ynEslD|least|check|=||0||||514 bytes, 346475
O4|most||||0||||514 bytes, 748477
MJH9fiO+wdXRyz65N012tn3pEFTloGK4LjWBuxQkZahAIcbVYvqsm78r/CeSgUDP|\
    least|check|.|_ ~|0||*|^|'^' is undefined
lj|least|check|||0||||514 bytes, 100573
HrnpAxM2GSQJOj16T9UgPRlsDoKue743|most||=||0||||514 bytes, 140535
GOyf|most||=||0||||unnecessary padding
zm3Eat4QrlJINk2YyPusBFcTvn7R1LS0|most||=||0||||514 bytes, 228642
Qo+gYm3p8OxS/HaNP7Zétkq0in5bfyLEFUlrJRsvD2wI4CKAM6VGBez1jd9WhTuc|\
    most|check|||0||||invalid number of symbols
tO|most|check|.||0||||unnecessary padding
CDPmyF+Q|least|check|=| |24|↵|*|D|516 bytes, 912350
KXWvL9Ru|most|check||←→|0||||515 bytes, 216785
2Z5EXIMq|most|check|2||0||B| |'2' has conflicting definitions
6lN8cEPKqViIBFd7xo3gHTnD1ysS0AbM|most||é||0||||non-ascii character
2rHbBLiVt0YIdgDvpnAf5FZWaqPK4RUy|most||=||24|é↵|||non-ascii character
CGznS8tY574RjMDayLupcHmErle620/VibTFhAdK1g3o9sBUfJPQxqZXw+OIWkNv|\
    most|check|||0||||514 bytes, 387694
aMsQ5bOZ8vHJPtxnfUkEchrNV2dRm6zq|most||a|↵~ |0||||'a' has conflicting definitions
d/ViP28zGcDoOYwH|most||||0||||514 bytes, 810431
UwhJ|least|check|.||300|←↵|||unnecessary padding
uAZ3zxI41mHfERJSDYC9ilgXo2aUTn8sOp+7WBVeyFNQhrj0vMtL5wP/cG6Kdqku|\
    most|check|| |0||;$#| =2|'u' has conflicting definitions
yfKh+ZIM|most|check|y||0||a|I|'y' has conflicting definitions
s2VZUm+p|most||=|←~→|256|←↵|)|p|invalid wrap width or separator length
IJ|least|check|.||0||||unnecessary padding
Zc9t5rvTwLNWeaoRJBbh4KVjfédA3CGF|most|check|||0||<#<|Nd!|invalid number of symbols
BbXF354O|least||=||0||||514 bytes, 593451
Z+UcYdV7KxT38XaerWFMos6PGy1lBwzj|most|check|=|-|0|←↵|||515 bytes, 289465
9X/xYyCNhIKkF02pzHvrmf+Bbt7aTuODqMQoZES1gscPn43wG5ie6lAJjWd8LVUR|\
    most||9||248|=|,&?| f^|'9' has conflicting definitions
CVUdGZXkIYb0/6RrWKMeOuqHaDhtF2c3fxT7mzLySspognABPjJ9158w+vlQ4ENi|\
    most|check|||0||||514 bytes, 378229
VTIY+KPd1SRzq3ZyorD5B/tUMJeXGmcwi8Fg7NhsA2kb49jnQEf6O0uWCHLpxval|\
    least||=|↵|24||||515 bytes, 349350
7kat5WSfjLDpGKb+zxwmvyYlenMRhuNO|least|check|=||0||!|!|'!' is undefined
eL0c/oA6PzZd9mUsE4FnRxGu2BHlSXkN|most||=||0||||514 bytes, 193060
JUAt|least||.|←-|76|↵|||unnecessary padding
uXBtmQe6081KVk5dbrFh4pAzOJDToLHc|least|check||→←~|0||||515 bytes, 228873
tR9hDMevIcQTCrjx/WZ10SzNUagJ6pmY7AdLF+4bqHsnwOV2oX8yPGE5lBfukiK3|\
    least|check||→|8|↵|||516 bytes, 381650
MKworgLv12jFGPNYkf4+zmU7ZeOE5q9clHSJWBIx/taVnispb0CuhQ6RydXA38DT|\
    most|check|=||0||||514 bytes, 337359
ImAFscu45DqU3rC|most|check|||16|↵|||invalid number of symbols
HYs6CwfL|most|check|.| ↵|0||||515 bytes, 151189
ia|least|check||~|0||||515 bytes, 904726
grvH50uXjSZLTdCQ2YVma+Bw97NcM8PklieK6JIFD/O1t3fE4RWszobyhUpAxGqn|\
    least|check||0|76|A|$|O|'0' has conflicting definitions
sc1KUqxACVDPFYL45SmJhQ3HI8G+NnlMX90tkweEzW2bjgyvOTdr/iua6BpfR7oZ|most||||0||@!|l |' ' is undefined
K6zsFval0CHyDxT9pB5Gf+hqIjbXZ2A|most|check|=||0||%@B|zh!|invalid number of symbols
qTcM51gB2zSE0yaVtOsw3r+KWmY8xfDbk/ZhLilP9odXAGuHnN4evF6JjR7QIpCU|\
    most|check|| |0||||515 bytes, 376043
A0|least|check|A||0||||unnecessary padding
2k4YMry/|most||=||0|←↵|!)|^k|'^' is undefined
0l|most|check|0||10|A|<%|0l|unnecessary padding
gyzC84RQ1JMdDkelPKZEXIOb2muLh37N|least||=|~~|0||%1!|^M!|'^' is undefined
Pqéu|least|check||↵|0||||invalid number of symbols
pY/iv9hG|most|check|=|_-←|248||||515 bytes, 190434
IYMdms5A+3Vf2aoJb8nuOiN/egr6xzDy|most||=||0||||514 bytes, 281621
sD9rgtpHiCq10xQVcdUnKjlfI4oFT5yR|most|check||~→|0||||515 bytes, 364750
edx|least|check|e| |0||||invalid number of symbols
+lR4U9LBmueAXPKYcZMd0s8nDvxrfk35|least|check|=|~|0|A|||515 bytes, 220615
r9FPoqeN|least||||76|↵|&!| F|wrap width not a multiple of 8
bhNj31xBr7Jt6SZqfoVlAQeyWvsYu+i|most|check|||0|A|||invalid number of symbols
62EPJ0SvoZCkRdX4|most|check|é||0||||unnecessary padding
Heos|least|check||↵→→|0||||515 bytes, 780078";

//! Tables of tests of path_state by single blocks: what one block does to its path, that is its
//! moves, what it changes, and where control goes, or its alarm. A row is run by `lone_path`.
use crate::lone_path::{flow_of, on_one_line, put_changes, put_turn, settings_of, state_of};
use cell_settings::Settings;
use nc_number::{NoMemory, Path};
use path_state::PathState;
use std::alloc::{AllocError, Global};
use std::process::Abort;
use std::test::Fail;
use tape_flow::Flow;

/// The cell. The path begins at X100. Z50. in machine coordinates, its shift being X0 Z10.; with
/// T0101 it is X-19.5 Z5., with G55 X2. Z20. The shared variables are #500 to #599.
const CELL: &str = "\
place 1 X100. Z50.~home 1 X300. Z200.~work 1 54 X0 Z10.~work 1 55 X2. Z20.~\
tool 1 1 X-20. Z-5.~wear 1 1 X0.5 Z0~";

/// A row each: the blocks that run before, the block, the blocks behind it where M30 is not all,
/// and what the block does: its readings, its moves, what it writes to a shared variable, a wait,
/// the end or the alarm, then each part of the state that changed, and last the line to which
/// control goes. Moves lead to machine coordinates. `~` stands for the end of a line. #500 reads as
/// 10, #501 as 11 and on; from #550 on they are vacant. The tapes are of G-code system A.
const ROWS: &str = "\
|X1000||rapid X1.000 Z50.000~at X1.000 Z50.000~to 4
|X1.||rapid X1.000 Z50.000~at X1.000 Z50.000~to 4
#1=5|X#1||rapid X5.000 Z50.000~at X5.000 Z50.000~to 5
#1=0.0005|X#1||rapid X0.001 Z50.000~at X0.001 Z50.000~to 5
#1=-0.0005|U#1||rapid X99.999 Z50.000~at X99.999 Z50.000~to 5
|X#1||to 4
|X-#1||to 4
|X5. X#1||rapid X5.000 Z50.000~at X5.000 Z50.000~to 4
|X1. X2.||rapid X2.000 Z50.000~at X2.000 Z50.000~to 4
|F1. F2.||F 2~to 4
|X[#1+0]||rapid X0.000 Z50.000~at X0.000 Z50.000~to 4
|X[#1] Z0||rapid X100.000 Z10.000~at X100.000 Z10.000~to 4
|X#500 Z#501||reads #500~reads #501~rapid X10.000 Z21.000~at X10.000 Z21.000~to 4
|X[#500+#500]||reads #500~reads #500~rapid X20.000 Z50.000~at X20.000 Z50.000~to 4
|X#550||reads #550~to 4
|S[1.5] X#500||alarm 64
|X#500 S[1.5]||reads #500~alarm 64
|X[1/0]||alarm 2
|X[SQRT[-1]]||alarm 3
|X[99999999.999999+1]||alarm 1
|X#[1.5]||alarm 4
|X#34||alarm 30
|X#[34]||alarm 30
|X#3000||alarm 30
|X50. Z#5001||rapid X50.000 Z110.000~at X50.000 Z110.000~to 4
F1.|F2. X#4109||rapid X1.000 Z50.000~at X1.000 Z50.000~F 2~to 5
|X1. I1.||alarm 56
|X1. K1.||alarm 56
|X1. R5.||alarm 56
|X1. I#1||rapid X1.000 Z50.000~at X1.000 Z50.000~to 4
|X1. I[1/0]||alarm 2
G02 F1.|G00 I1.||alarm 56
G02 F1.|G00 I#1||G00~to 5
|G02 G00 I1.||alarm 56
|G00 G03 W-20. K-10. F1.||ccw X100.000 Z30.000 I0.000 K-10.000 F1 rev~at X100.000 Z30.000~G03~F 1~to 4
G02 F1.|X60. R50.||cw X60.000 Z50.000 R50.000 F1 rev~at X60.000 Z50.000~to 5
G02 F1.|G90 X40. Z-30. R-3.7||alarm 56
|G90 X40. Z-30. R-3.7 F0.2||alarm 56
G03 F1.|G92 X40. Z0 R-1.||alarm 56
|G92 X40. Z0 R-1. F2.||alarm 56
G02 F1.|G94 X40. Z0 K1.||alarm 56
|G94 X40. Z0 R1. F1.||alarm 56
G03 F1.|G01 X40. R2.||alarm 56
|G01 X40. R2. F1.||alarm 56
|G00 X40. K1.||alarm 56
G02 F1.|G32 Z0 I1.||alarm 56
|G32 Z0 R1. F2.||alarm 56
G02 F1.|G10 P1 X1. R5.||wear 1 X1.000 Z0.000~to 5
|G02 I5. F1.||cw X100.000 Z50.000 I5.000 K0.000 F1 rev~G02~F 1~to 4
|G10 P1 X1. R5.||wear 1 X1.000 Z0.000~to 4
|G10 P2 Z1. Q3||wear 2 X0.000 Z1.000~to 4
|G10 P1 I1.||alarm 56
#1=100000|S#1||alarm 64
#1=-1|F#1||alarm 64
#1=10000|T#1||alarm 64
#1=1.5|T#1||alarm 64
#1=-0.0001|G04 X#1||alarm 64
#1=1.5|G04 P#1||alarm 64
#1=1.5|G10 P#1||alarm 64
|G04 X0.0005||dwell 1~to 4
|G04 X1500||dwell 1500~to 4
|G04 U1.5||dwell 1500~to 4
#1=1.5|G04 X#1||dwell 1500~to 5
|G04 P500||dwell 500~to 4
|G04 X1. P250||dwell 250~to 4
|G04 P250 X1.||dwell 1000~to 4
|G04 X1. P#1||dwell 1000~to 4
|G04||dwell 0~to 4
|G04 Z5.||dwell 0~to 4
G90 X40. Z0 F0.2|G04 P1||dwell 1~to 5
|S800||speed G97 S800~S 800~to 4
|G96 S200||speed G96 S200~G96~S 200~to 4
|S#1||to 4
|G50 S2500||limit S2500~limit 2500~to 4
S800|G50 S2500||limit S2500~limit 2500~to 5
|G50 S#1||to 4
|G50 S1000 G04 P5||limit S1000~dwell 5~limit 1000~to 4
|G04 G50 S1000||limit S1000~limit 1000~to 4
|T0101||tool T0101~T0101~offset 1~to 4
T0101|T0100||tool T0100~T0100~offset 0~to 5
|T0064||tool T0064~T0064~offset 64~to 4
|T0165||alarm 40
|G01 G55 F1. S5 T0165||alarm 40
|T#1||to 4
|G01 X50. F0.2||feed X50.000 Z50.000 F0.2 rev~at X50.000 Z50.000~G01~F 0.2~to 4
|G98 G01 X50. F100||feed X50.000 Z50.000 F100 min~at X50.000 Z50.000~G01~G98~F 100~to 4
G01 F0.2|X50. F#1||feed X50.000 Z50.000 F0.2 rev~at X50.000 Z50.000~to 5
|G01 G00 X50.||rapid X50.000 Z50.000~at X50.000 Z50.000~to 4
|G18 G67 G80||to 4
|G21 G40||to 4
|G55||G55~to 4
|G55 X50. Z0||rapid X52.000 Z20.000~at X52.000 Z20.000~G55~to 4
|T0101 X50. Z0||tool T0101~rapid X30.500 Z5.000~at X30.500 Z5.000~T0101~offset 1~to 4
|T0101 U1. W1.||tool T0101~rapid X101.000 Z51.000~at X101.000 Z51.000~T0101~offset 1~to 4
|G01 X50. F0||alarm 44
|G01 X50.||alarm 44
|G01||G01~to 4
|G01 X#1||G01~to 4
|G32||G32~to 4
|G90||G90~to 4
|G02 R5.||G02~to 4
|G02 R5. I2. F1.||cw X100.000 Z50.000 R5.000 F1 rev~G02~F 1~to 4
|U0||rapid X100.000 Z50.000~to 4
|G10 L2 P1 X1. Z2.||work 1 X1.000 Z2.000~to 4
|G10 L2 P0 U1. W2.||work 0 X1.000 Z2.000~to 4
|G10 L2 P1 W-3.||work 1 X0.000 Z7.000~to 4
|G10 L2 P6 X1.||work 6 X1.000 Z0.000~to 4
|G10 L2 P7 X1.||alarm 40
#1=-1|G10 L2 P#1 X1.||alarm 40
|G10 L2 X1.||alarm 40
|G10 X1.||alarm 40
|G10 P#1 X1.||alarm 40
|G10 P10001 X1.||geometry 1 X1.000 Z-5.000~to 4
|G10 P10064 W1.||geometry 64 X0.000 Z1.000~to 4
|G10 P64 Z1.||wear 64 X0.000 Z1.000~to 4
|G10 P1 U0.25||wear 1 X0.750 Z0.000~to 4
|G10 P0||alarm 40
|G10 P65 X1.||alarm 40
|G10 P10000 X1.||alarm 40
|G10 P10065 X1.||alarm 40
|G10 P1||to 4
|G10 P1 X#1||to 4
|G10 P1 X99999.999||wear 1 X99999.999 Z0.000~to 4
|G10 P1 X100000.||alarm 41
|G10 P1 U99999.5||alarm 41
|G10 P65 X100000.||alarm 40
|G10 P1 X100000. T0165||alarm 40
|G28 U0 W0||rapid X100.000 Z50.000~rapid X300.000 Z200.000~at X300.000 Z200.000~to 4
|G28 X50.||rapid X50.000 Z50.000~rapid X300.000 Z50.000~at X300.000 Z50.000~to 4
|G28 Z0||rapid X100.000 Z10.000~rapid X100.000 Z200.000~at X100.000 Z200.000~to 4
|G28||to 4
|G28 X#1||to 4
|G28 X100000.||alarm 41
|T0101 G28 X50. Z0||tool T0101~rapid X30.500 Z5.000~rapid X300.000 Z200.000~at X300.000 Z200.000~T0101~offset 1~to 4
|G53 X10. Z20.||rapid X10.000 Z20.000~at X10.000 Z20.000~to 4
|G53 Z20.||rapid X100.000 Z20.000~at X100.000 Z20.000~to 4
|G53||to 4
G01 F1.|G53 X10.||rapid X10.000 Z50.000~at X10.000 Z50.000~to 5
|G53 G04 P5||dwell 5~to 4
|X99999.999||rapid X99999.999 Z50.000~at X99999.999 Z50.000~to 4
|X100000.||alarm 41
|Z99989.999||rapid X100.000 Z99999.999~at X100.000 Z99999.999~to 4
|Z99990.||alarm 41
|G01 G98 X100020. F1. S5 T0101||alarm 41
|G02 X100000.||alarm 41
|G02 X50.||alarm 43
|G02 X50. I#1||alarm 43
|G02 X50. I1.||alarm 42
|G02 X50. R1.||alarm 42
|G02 X50. R100.||alarm 44
|G02 X100000. I1. T0165||alarm 40
|G02 X60. I-10. F1.||cw X60.000 Z50.000 I-10.000 K0.000 F1 rev~at X60.000 Z50.000~G02~F 1~to 4
|G03 W-20. K-10. F1.||ccw X100.000 Z30.000 I0.000 K-10.000 F1 rev~at X100.000 Z30.000~G03~F 1~to 4
|G02 X60. R50. I1. F1.||cw X60.000 Z50.000 R50.000 F1 rev~at X60.000 Z50.000~G02~F 1~to 4
|G03 X60. R-50. F1.||ccw X60.000 Z50.000 R-50.000 F1 rev~at X60.000 Z50.000~G03~F 1~to 4
|G32 Z0 F2.||thread X100.000 Z10.000 F2~at X100.000 Z10.000~G32~F 2~to 4
|G32 Z0||alarm 44
|G90 X40. Z0 F0.2||rapid X40.000 Z50.000~feed X40.000 Z10.000 F0.2 rev~feed X100.000 Z10.000 F0.2 rev~rapid X100.000 Z50.000~G90~F 0.2~cycle X40.000 Z10.000~to 4
|G92 X40. Z0 F2.||rapid X40.000 Z50.000~thread X40.000 Z10.000 F2~rapid X100.000 Z10.000~rapid X100.000 Z50.000~G92~F 2~cycle X40.000 Z10.000~to 4
|G94 X40. Z0 F0.2||rapid X100.000 Z10.000~feed X40.000 Z10.000 F0.2 rev~feed X40.000 Z50.000 F0.2 rev~rapid X100.000 Z50.000~G94~F 0.2~cycle X40.000 Z10.000~to 4
|G90 X100000.||alarm 41
|G90 X40.||alarm 44
|G90 X40. F0.2||rapid X40.000 Z50.000~feed X40.000 Z50.000 F0.2 rev~feed X100.000 Z50.000 F0.2 rev~rapid X100.000 Z50.000~G90~F 0.2~cycle X40.000 Z50.000~to 4
G90 X40. Z0 F0.2|X38.||rapid X38.000 Z50.000~feed X38.000 Z10.000 F0.2 rev~feed X100.000 Z10.000 F0.2 rev~rapid X100.000 Z50.000~cycle X38.000 Z10.000~to 5
G90 X40. Z0 F0.2|G90 X38.||rapid X38.000 Z50.000~feed X38.000 Z10.000 F0.2 rev~feed X100.000 Z10.000 F0.2 rev~rapid X100.000 Z50.000~cycle X38.000 Z10.000~to 5
G90 X40. Z0 F0.2|U-4.||rapid X96.000 Z50.000~feed X96.000 Z10.000 F0.2 rev~feed X100.000 Z10.000 F0.2 rev~rapid X100.000 Z50.000~cycle X96.000 Z10.000~to 5
G90 X40. Z0 F0.2~G04 P1|X38.||rapid X38.000 Z50.000~feed X38.000 Z10.000 F0.2 rev~feed X100.000 Z10.000 F0.2 rev~rapid X100.000 Z50.000~cycle X38.000 Z10.000~to 6
G90 X40. Z0 F0.2~G55|X38.||rapid X40.000 Z50.000~feed X40.000 Z10.000 F0.2 rev~feed X100.000 Z10.000 F0.2 rev~rapid X100.000 Z50.000~to 6
G90 X40. Z0 F0.2|G00||G00~no cycle~to 5
G90 X40. Z0 F0.2~G00|G90 X38.||rapid X38.000 Z50.000~feed X38.000 Z50.000 F0.2 rev~feed X100.000 Z50.000 F0.2 rev~rapid X100.000 Z50.000~G90~cycle X38.000 Z50.000~to 6
G90 X40. Z0 F0.2|G94 X38.||rapid X100.000 Z50.000~feed X38.000 Z50.000 F0.2 rev~feed X38.000 Z50.000 F0.2 rev~rapid X100.000 Z50.000~G94~cycle X38.000 Z50.000~to 5
G90 X40. Z0 F0.2|F0.1||F 0.1~to 5
|G97 S800 T0101 X50. M08||speed G97 S800~tool T0101~rapid X30.500 Z50.000~aux M08~at X30.500 Z50.000~S 800~T0101~offset 1~to 4
|S800 T0101 G90 X40. Z0 F0.2 M08||speed G97 S800~tool T0101~rapid X20.500 Z50.000~feed X20.500 Z5.000 F0.2 rev~feed X100.000 Z5.000 F0.2 rev~rapid X100.000 Z50.000~aux M08~G90~F 0.2~S 800~T0101~offset 1~cycle X20.500 Z5.000~to 4
|M00||aux M00~to 4
|M01||aux M01~to 4
|M96||aux M96~to 4
|M97||aux M97~to 4
|M198||aux M198~to 4
|M02||end
|X50. S5 M30||speed G97 S5~rapid X50.000 Z50.000~end~at X50.000 Z50.000~S 5
|M30 X100000.||alarm 41
M98 P2~X1.~O2|M30||end
|M101||wait 101~to 4
|M101 P3||wait 101~to 4
|M98 P2|M30~O2~M99|depth 1~in O2~to 6
|M98 P30203|M30~O203~M101~M99|depth 1~in O203~left 2~to 6
|M98 P2 L3|M30~O2~M99|depth 1~in O2~left 2~to 6
#1=5|M98 P2|M30~O2~M99|depth 1~in O2~to 7
|M98 P2 X50.|M30~O2~M99|rapid X50.000 Z50.000~at X50.000 Z50.000~depth 1~in O2~to 6
|M98 P2 X100000.|M30~O2~M99|alarm 41
#1=5~#2=6|G65 P2 A7.|M30~O2~M99|depth 1~in O2~#1 7~#2 vacant~to 8
|G65 P2 A1 B2 C3 D4 E5 F6 H7 I8 J9 K10|M30~O2~M99|depth 1~in O2~#1 1~#2 2~#3 3~#4 0.008~#5 9~#6 0.01~#7 4~#8 5~#9 6~#11 7~to 6
|G65 P2 M1 Q2 R3 S4 T5 U6 V7 W8 X9 Y10 Z11|M30~O2~M99|depth 1~in O2~#13 1~#17 2~#18 0.003~#19 4~#20 5~#21 0.006~#22 7~#23 0.008~#24 0.009~#25 10~#26 0.011~to 6
|G65 P2 X1.123456|M30~O2~M99|depth 1~in O2~#24 1.123456~to 6
|G65 P2 A1 A#1|M30~O2~M99|depth 1~in O2~#1 1~to 6
|G65 P2 A1 A2|M30~O2~M99|depth 1~in O2~#1 2~to 6
#1=5|G65 P2 A[#1+1] B#1|M30~O2~M99|depth 1~in O2~#1 6~#2 5~to 7
|G65 P2 L3 A1|M30~O2~M99|depth 1~in O2~left 2~#1 1~to 6
|G65 P2 M30|M30~O2~M99|depth 1~in O2~#13 30~to 6
|G65 P2 S-1.5 F-1.|M30~O2~M99|depth 1~in O2~#9 -1~#19 -1.5~to 6
|G65 P2 A#500 B#501|M30~O2~M99|reads #500~reads #501~depth 1~in O2~#1 10~#2 11~to 6
|G65 P2 A#500 B[1/0]|M30~O2~M99|reads #500~alarm 2
M98 P2~M30~O2|M99||depth 0~in O1~to 4
M98 P2 L3~M30~O2|M99||left 1~to 6
#1=5~G65 P2 A7.~M30~O2~#2=8|M99||depth 0~in O1~#1 5~#2 vacant~to 5
G65 P2 L2 A7.~M30~O2~#1=8~#2=9|M99||left 0~#1 7~#2 vacant~to 6
M98 P2~M30~O2|M99 X50.||rapid X50.000 Z50.000~at X50.000 Z50.000~depth 0~in O1~to 4
M98 P2 L3~X1.~N7 X2.~M30~O2|M99 P7|X9.|depth 0~in O1~left 0~to 5
G65 P2 A7.~N7 M30~O2|M99 P7|X9.|depth 0~in O1~#1 vacant~to 4
G65 P2 L9 A7.~X1.~N7 M30~O2|M99 P7|X9.|depth 0~in O1~left 0~#1 vacant~to 5
M98 P2~M30~O2|M99 P7|X9.|alarm 50
M98 P2~DO1~N7 X1.~END1~M30~O2|M99 P7|X9.|alarm 53
X1.|M99||to 3
|M99 X50.||rapid X50.000 Z50.000~at X50.000 Z50.000~to 3
X1.~N5 X2.|M99 P5||to 4
IF [#100 EQ 1] GOTO 9~#100=1~M98 P1|N9 M99|X1.|depth 0~to 6
|#1=5||#1 5~to 4
#2=3|#1=#2+1||#1 4~to 5
#1=5|#1=#2||#1 vacant~to 5
#1=5|#1=[#0]||#1 vacant~to 5
#1=5|#1=-#2||#1 0~to 5
|#[1+1]=5||#2 5~to 4
|#[#500]=#501||reads #500~reads #501~#10 11~to 4
|#9999=1/0||alarm 30
|#34=#500||alarm 30
|#4001=1/0||alarm 2
|#4001=#500||reads #500~alarm 31
|#1=#4003||alarm 30
|#4003=90||alarm 30
|#4003=1/0||alarm 30
|#[4003]=#500||alarm 30
|#0=1||alarm 31
|#[#1]=1||alarm 31
|#5001=1||alarm 31
|#5022=1||alarm 31
|#[1.5]=1||alarm 4
|#1=#3000||alarm 30
|#3000=5||alarm 33 5
|#3000=1.5||alarm 33 1.5
|#3000=#1||alarm 33
|#100=7||#100 7~to 4
|#600=7||#600 7~to 4
|#500=7||writes #500 7~to 4
|#599=#1||writes #599 vacant~to 4
|#500=#500+1||reads #500~writes #500 11~to 4
|#5221=1.0005||work 1 X1.001 Z10.000~to 4
|#5221=-1.0005||work 1 X-1.001 Z10.000~to 4
|#5222=#1||work 1 X0.000 Z0.000~to 4
|#5322=3||work 6 X0.000 Z3.000~to 4
|#5201=99999.9994||work 0 X99999.999 Z0.000~to 4
|#5201=99999.9995||alarm 41
|#1=#4001+#4002+#4005+#4006+#4007+#4014||#1 311~to 4
F0.2 S800 T0101|#1=#4109+#4119+#4120||#1 901.2~to 5
#1=5|#1=#4109||#1 vacant~to 5
T0101|#1=#5001||#1 119.5~to 5
T0101|#1=#5002||#1 45~to 5
T0101|#1=#5021||#1 100~to 5
T0101|#1=#5022||#1 50~to 5
|#1=#5222||#1 10~to 4
|#1=#5201||#1 0~to 4
|IF [1 EQ 1] GOTO 9|X1.~N9 M30|to 5
|IF [1 EQ 2] GOTO 9|X1.~N9 M30|to 4
|IF [1 EQ 2] GOTO [1/0]||to 4
|IF [1 EQ 1] GOTO [1/0]||alarm 2
|IF [#500 EQ 11] GOTO #501||reads #500~to 4
|IF [#500 EQ 10] GOTO #501|X1.~N11 M30|reads #500~reads #501~to 5
|GOTO [8+1]|X1.~N9 M30|to 5
|GOTO [1.5]||alarm 4
|GOTO [-1]||alarm 50
|GOTO [100000]||alarm 50
|GOTO #1||alarm 50
|GOTO #1|X1.~N0 M30|to 5
|GOTO [7]|DO1~N7 X1.~END1~M30|alarm 53
N9 X1.|GOTO 9|X2.~N9 M30|to 6
N9 X1.|GOTO [9]||to 3
|N9 GOTO [9]||to 3
DO1|GOTO 9|END1~N9 M30|to 6
|IF [1 EQ 1] THEN #1=5||#1 5~to 4
|IF [1 EQ 2] THEN #1=1/0||to 4
|IF [1 EQ 2] THEN #9999=1||to 4
|IF [#500 GT #501] THEN #1=#502||reads #500~reads #501~to 4
|IF [#1 EQ 0] THEN #2=1||to 4
|IF [#1 EQ #0] THEN #2=1||#2 1~to 4
|IF [#1 NE 0] THEN #2=1||#2 1~to 4
|IF [#1 GE 0] THEN #2=1||#2 1~to 4
|WHILE [1 EQ 1] DO1|X1.~END1~M30|to 4
|WHILE [1 EQ 2] DO1|X1.~END1~M30|to 6
|WHILE [1/0 EQ 2] DO1|X1.~END1~M30|alarm 2
|DO1|X1.~END1~M30|to 4
DO1~X1.|END1||to 3
WHILE [#1 LT 2] DO1~#1=#1+1|END1||to 3
DO1~DO2~X1.|END2|END1~M30|to 4";

/// Rows of the form of `ROWS`, for a cell whose tapes are of G-code system B.
const ROWS_B: &str = "\
|X1.||rapid X1.000 Z50.000~at X1.000 Z50.000~to 4
|G90 X1. Z0||rapid X1.000 Z10.000~at X1.000 Z10.000~to 4
|G90||to 4
|G91||G91~to 4
|G91 X1.||rapid X101.000 Z50.000~at X101.000 Z50.000~G91~to 4
|X1. G91||rapid X101.000 Z50.000~at X101.000 Z50.000~G91~to 4
|G91 X-1. Z2.||rapid X99.000 Z52.000~at X99.000 Z52.000~G91~to 4
|G91 G90 X1.||rapid X1.000 Z50.000~at X1.000 Z50.000~to 4
|G90 G91 X1.||rapid X101.000 Z50.000~at X101.000 Z50.000~G91~to 4
G91|X1.||rapid X101.000 Z50.000~at X101.000 Z50.000~to 5
G91|G90 X1.||rapid X1.000 Z50.000~at X1.000 Z50.000~G90~to 5
G91|X#1||to 5
G91~#1=2|X#1 Z-#1||rapid X102.000 Z48.000~at X102.000 Z48.000~to 6
G91|X1. X2.||rapid X102.000 Z50.000~at X102.000 Z50.000~to 5
|G91 X#500||reads #500~rapid X110.000 Z50.000~at X110.000 Z50.000~G91~to 4
|G91 T0101 X1. Z1.||tool T0101~rapid X101.000 Z51.000~at X101.000 Z51.000~G91~T0101~offset 1~to 4
|G91 X99899.999||rapid X99999.999 Z50.000~at X99999.999 Z50.000~G91~to 4
|G91 X99900.||alarm 41
|G91 G01 X-5. Z-1. F0.2||feed X95.000 Z49.000 F0.2 rev~at X95.000 Z49.000~G01~G91~F 0.2~to 4
|G91 G01 X-5.||alarm 44
|G94 G01 X50. F100||feed X50.000 Z50.000 F100 min~at X50.000 Z50.000~G01~G94~F 100~to 4
G94|G95 G01 X50. F0.2||feed X50.000 Z50.000 F0.2 rev~at X50.000 Z50.000~G01~G95~F 0.2~to 5
|G91 G02 X-40. I-10. F1.||cw X60.000 Z50.000 I-10.000 K0.000 F1 rev~at X60.000 Z50.000~G02~G91~F 1~to 4
|G91 G03 Z-20. K-10. F1.||ccw X100.000 Z30.000 I0.000 K-10.000 F1 rev~at X100.000 Z30.000~G03~G91~F 1~to 4
|G91 G02 X-40. R50. F1.||cw X60.000 Z50.000 R50.000 F1 rev~at X60.000 Z50.000~G02~G91~F 1~to 4
|G33 Z0 F2.||thread X100.000 Z10.000 F2~at X100.000 Z10.000~G33~F 2~to 4
|G91 G33 Z-40. F2.||thread X100.000 Z10.000 F2~at X100.000 Z10.000~G33~G91~F 2~to 4
|G77 X40. Z0 F0.2||rapid X40.000 Z50.000~feed X40.000 Z10.000 F0.2 rev~feed X100.000 Z10.000 F0.2 rev~rapid X100.000 Z50.000~G77~F 0.2~cycle X40.000 Z10.000~to 4
|G78 X40. Z0 F2.||rapid X40.000 Z50.000~thread X40.000 Z10.000 F2~rapid X100.000 Z10.000~rapid X100.000 Z50.000~G78~F 2~cycle X40.000 Z10.000~to 4
|G79 X40. Z0 F0.2||rapid X100.000 Z10.000~feed X40.000 Z10.000 F0.2 rev~feed X40.000 Z50.000 F0.2 rev~rapid X100.000 Z50.000~G79~F 0.2~cycle X40.000 Z10.000~to 4
|G91 G77 X-60. Z-40. F0.2||rapid X40.000 Z50.000~feed X40.000 Z10.000 F0.2 rev~feed X100.000 Z10.000 F0.2 rev~rapid X100.000 Z50.000~G77~G91~F 0.2~cycle X40.000 Z10.000~to 4
|G91 G78 X-60. Z-40. F2.||rapid X40.000 Z50.000~thread X40.000 Z10.000 F2~rapid X100.000 Z10.000~rapid X100.000 Z50.000~G78~G91~F 2~cycle X40.000 Z10.000~to 4
|G91 G79 X-60. Z-40. F0.2||rapid X100.000 Z10.000~feed X40.000 Z10.000 F0.2 rev~feed X40.000 Z50.000 F0.2 rev~rapid X100.000 Z50.000~G79~G91~F 0.2~cycle X40.000 Z10.000~to 4
G77 X40. Z0 F0.2|G91 X-4.||rapid X96.000 Z50.000~feed X96.000 Z10.000 F0.2 rev~feed X100.000 Z10.000 F0.2 rev~rapid X100.000 Z50.000~G91~cycle X96.000 Z10.000~to 5
G91 G77 X-60. Z-40. F0.2|G90 X38.||rapid X38.000 Z50.000~feed X38.000 Z10.000 F0.2 rev~feed X100.000 Z10.000 F0.2 rev~rapid X100.000 Z50.000~G90~cycle X38.000 Z10.000~to 5
G77 X40. Z0 F0.2|G00||G00~no cycle~to 5
|G77 X40. Z0 R1. F0.2||alarm 56
|G28 X50.||rapid X50.000 Z50.000~rapid X300.000 Z50.000~at X300.000 Z50.000~to 4
|G91 G28 X0 Z0||rapid X100.000 Z50.000~rapid X300.000 Z200.000~at X300.000 Z200.000~G91~to 4
|G91 G28 X-5.||rapid X95.000 Z50.000~rapid X300.000 Z50.000~at X300.000 Z50.000~G91~to 4
|G91 G28||G91~to 4
|G53 X10. Z20.||rapid X10.000 Z20.000~at X10.000 Z20.000~to 4
|G53||to 4
|G91 G53 X0||alarm 56
|G91 G53 X10. Z20.||alarm 56
|G91 G53||alarm 56
|G91 G53 X#1||alarm 56
|G91 G53 X#500||reads #500~alarm 56
|G53 X0 G91||alarm 56
G91|G53 X10.||alarm 56
G91|G53||alarm 56
G91|G90 G53 X10.||rapid X10.000 Z50.000~at X10.000 Z50.000~G90~to 5
G91|G53 G90 X10.||rapid X10.000 Z50.000~at X10.000 Z50.000~G90~to 5
|G91 G53 X10. T0165||alarm 40
|G91 G53 X100000.||alarm 56
|G91 G53 S[1.5]||alarm 64
|G91 G53 G04 P5||dwell 5~G91~to 4
|G91 G04 X1.5||dwell 1500~G91~to 4
|G10 L2 P1 X1. Z2.||work 1 X1.000 Z2.000~to 4
|G91 G10 L2 P1 X1. Z-3.||G91~work 1 X1.000 Z7.000~to 4
|G91 G10 P1 X0.25||G91~wear 1 X0.750 Z0.000~to 4
|G91 G10 P10001 Z1.||G91~geometry 1 X-20.000 Z-4.000~to 4
G91|G90 G10 P1 X0.25||G90~wear 1 X0.250 Z0.000~to 5
|G91 G10 P1 X99999.5||alarm 41
|G91 G10 P65 X1.||alarm 40
|G92 S2500||limit S2500~limit 2500~to 4
|G91 G92 S2500||limit S2500~G91~limit 2500~to 4
S800|G92 S2500||limit S2500~limit 2500~to 5
|G92 S1000 G04 P5||limit S1000~dwell 5~limit 1000~to 4
|S800||speed G97 S800~S 800~to 4
|G96 S200||speed G96 S200~G96~S 200~to 4
|G65 P2 U6 W8|M30~O2~M99|depth 1~in O2~#21 0.006~#23 0.008~to 6
|#1=#4003||#1 90~to 4
G91|#1=#4003||#1 91~to 5
|G91 X#4003||rapid X190.000 Z50.000~at X190.000 Z50.000~G91~to 4
|#4003=91||alarm 31
|#4003=1/0||alarm 2
|#4003=#500||reads #500~alarm 31
|#[4003]=91||alarm 31
|#1=#4001+#4002+#4003+#4005+#4006+#4007+#4014||#1 397~to 4
|IF [#4003 EQ 90] GOTO 9|X1.~N9 M30|to 5
|M30 G91 X1.||rapid X101.000 Z50.000~end~at X101.000 Z50.000~G91";

/// Lets the path run until it stands at the line, for a hundred turns at most.
fn run_to(alloc: Global, path: &mut PathState, flow: &Flow, line: u32) -> Result<(), AllocError> {
    let mut unheard = String::new(alloc);
    for _ in 0..100u8 {
        if path.line(flow) == line {
            return Ok(());
        }
        put_turn(&mut unheard, "", alloc, path, flow)?;
    }
    Ok(())
}

/// Adds what the block of the path does, with the changes from the state before, a line for each
/// part.
fn put_told(
    out: &mut String,
    alloc: Global,
    path: &mut PathState,
    flow: &Flow,
    before: &str,
) -> Result<(), AllocError> {
    let goes_on = put_turn(out, "", alloc, path, flow)?;
    put_changes(out, alloc, before, path)?;
    if goes_on {
        let to = path.line(flow);
        writeln!(out, "to {to}")?;
    }
    Ok(())
}

/// What the block of the path does, on one line as a row has it.
fn told(alloc: Global, path: &mut PathState, flow: &Flow) -> Result<String, NoMemory> {
    let mut out = String::new(alloc);
    let before = state_of(alloc, path)?;
    put_told(&mut out, alloc, path, flow, before.as_str())?;
    Ok(on_one_line(alloc, out.as_str())?)
}

/// What the block at the line does to the path, once the blocks before it have run.
fn told_at(
    alloc: Global,
    path: &mut PathState,
    flow: &Flow,
    line: u32,
) -> Result<String, NoMemory> {
    run_to(alloc, path, flow, line)?;
    if path.line(flow) == line {
        told(alloc, path, flow)
    } else {
        Ok(String::from_str(alloc, "the block is not reached")?)
    }
}

/// What the block at the line does to path 1, which begins the flow afresh.
fn run(alloc: Global, flow: &Flow, settings: &Settings, line: u32) -> Result<String, NoMemory> {
    match PathState::new(alloc, flow, settings, Path::One) {
        Ok(mut path) => told_at(alloc, &mut path, flow, line),
        Err(fail) => Err(fail),
    }
}

/// The line of a row's block, behind those before it, a line each from line 3 on.
fn line_behind(before: &str) -> u32 {
    if before.is_empty() {
        return 3;
    }
    let mut line = 4u32;
    for byte in before.bytes() {
        if byte == b'~' {
            line = line.saturating_add(1);
        }
    }
    line
}

/// The tape of a block with those before it and those behind it, which are M30 where none are
/// given.
fn tape_text(alloc: Global, before: &str, block: &str, behind: &str) -> Result<String, AllocError> {
    let end = if before.is_empty() { "" } else { "~" };
    let behind = if behind.is_empty() { "M30" } else { behind };
    let mut text = String::new(alloc);
    write!(&mut text, "%~O1~{before}{end}{block}~{behind}~%~")?;
    Ok(text)
}

/// What the block at the line of the tape does.
fn outcome(alloc: Global, settings: &Settings, text: &str, line: u32) -> Result<String, Fail> {
    let flow = flow_of(alloc, text, settings)?;
    Ok(run(alloc, &flow, settings, line)?)
}

/// Fails the test where the block of a row does not do what the row says.
fn row_holds(rt: &impl Abort, alloc: Global, settings: &Settings, row: &str) -> Result<(), Fail> {
    let (before, rest) = row.split_once('|').unwrap_or((row, ""));
    let (block, rest) = rest.split_once('|').unwrap_or((rest, ""));
    let (behind, wanted) = rest.split_once('|').unwrap_or((rest, ""));
    let text = tape_text(alloc, before, block, behind)?;
    let got = outcome(alloc, settings, text.as_str(), line_behind(before))?;
    assert_eq!(rt; got.as_str(), wanted, "{row}");
    Ok(())
}

#[test]
fn a_block_and_what_it_does(rt: HostRuntime) -> Result<(), Fail> {
    let alloc = rt.alloc();
    let settings = settings_of(alloc, CELL)?;
    for row in ROWS.lines() {
        row_holds(&rt, alloc, &settings, row)?;
    }
    Ok(())
}

/// The settings of the cell, for tapes of system B.
fn settings_b(alloc: Global) -> Result<Settings, Fail> {
    let mut text = String::new(alloc);
    text.push_str("codes B~")?;
    text.push_str(CELL)?;
    settings_of(alloc, text.as_str())
}

#[test]
fn a_block_of_system_b_and_what_it_does(rt: HostRuntime) -> Result<(), Fail> {
    let alloc = rt.alloc();
    let settings = settings_b(alloc)?;
    for row in ROWS_B.lines() {
        row_holds(&rt, alloc, &settings, row)?;
    }
    Ok(())
}
